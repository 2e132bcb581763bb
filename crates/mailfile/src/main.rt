//! The program: serves a session from standard input to standard output.
#![tactic(auto)]

use command_lines::fill_streams;
use command_lines::session::{end_without_session, read_command_line};
use session_files::{serve_memory, serve_path};
use std::process::ExitCode;

fn main(rt: HostRuntime) -> ExitCode {
    let _ = fill_streams(&rt);
    match read_command_line(&rt) {
        Ok(line) => match line.store {
            Some(path) => serve_path(&rt, path.as_str()),
            None => serve_memory(&rt),
        },
        Err(fault) => end_without_session(&rt, fault),
    }
}
