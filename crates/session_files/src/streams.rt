//! Sessions from standard input to standard output.

use crate::memory::serve_in_memory;
use crate::session::serve_file;
use record_places::System;
use session_protocol::{Input, Output, ServeFault};
use sqlite::Unknown;
use std::process::ExitCode;

/// The status after a read or a write fault.
const STATUS_FAULT: u8 = 1;

/// The status where there is no store to serve over.
const STATUS_NO_STORE: u8 = 3;

/// Serves a session over a new store in memory. The status is 1 after a read or a write fault, 3 where there is no store,
/// and else 0.
pub fn serve_memory(rt: &HostRuntime) -> ExitCode {
    let mut input = Input::new(rt.stdin());
    let mut output = Output::new(rt.stdout());
    match serve_in_memory(rt.alloc(), &mut input, &mut output) {
        Some(session) => end_session(rt, session),
        None => end_without_store(rt),
    }
}

/// Serves a session over the store in the file at a path by `serve_file`, with the statuses of `serve_memory`: it adds
/// the program's streams, and what is said on standard error. `Unknown` says that no code knows what the file holds, and
/// that a write which a crash cuts short leaves each octet old or new.
pub fn serve_path(rt: &HostRuntime, path: &str) -> ExitCode {
    let mut input = Input::new(rt.stdin());
    let mut output = Output::new(rt.stdout());
    let mut system = System::new(rt);
    match serve_file(
        &mut system,
        rt.alloc(),
        path,
        Unknown,
        &mut input,
        &mut output,
    ) {
        Ok(ended) => end_session(rt, ended.session),
        Err(_) => end_without_store(rt),
    }
}

/// Ends after a session.
fn end_session(rt: &HostRuntime, session: Result<(), ServeFault>) -> ExitCode {
    match session {
        Ok(()) => ExitCode::SUCCESS,
        Err(fault) => {
            let _ = eprintln!(rt; "mailfile: {fault}");
            ExitCode::from(STATUS_FAULT)
        }
    }
}

/// Ends without a session, where there is no store.
fn end_without_store(rt: &HostRuntime) -> ExitCode {
    let _ = eprintln!(rt; "mailfile: no store");
    ExitCode::from(STATUS_NO_STORE)
}
