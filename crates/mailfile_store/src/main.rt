//! Runs an archive in a file: captures mail, lists and reads records, exports them, holds and destroys them.
//!
//! It works on the desk and the store by their calls, so no octet of a message is ever read as a command.
#![tactic(auto)]

mod files;

use cli_tasks::serve;
use files::FileArchives;
use std::process::ExitCode;

fn main(rt: HostRuntime) -> ExitCode {
    serve(&rt, &FileArchives)
}
