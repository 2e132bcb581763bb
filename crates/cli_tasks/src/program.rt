//! The command line, and what it asks for.

use crate::archives::Archives;
use crate::reports::{end_with, end_without_command};
use crate::subcommands::execute;
use command_lines::archives::read_command_line;
use command_lines::{fill_streams, words_of_process};
use std::process::ExitCode;

/// Reads the command line and executes it, over archives that are kept there.
pub fn serve<A: Archives>(rt: &HostRuntime, archives: &A) -> ExitCode {
    let _ = fill_streams(rt);
    let words = match words_of_process(rt) {
        Ok(words) => words,
        Err(none) => return end_without_command(rt, none),
    };
    let line = match read_command_line(rt, words.as_slice()) {
        Ok(line) => line,
        Err(none) => return end_without_command(rt, none),
    };
    match execute(rt, archives, line) {
        Ok(()) => ExitCode::SUCCESS,
        Err(failure) => end_with(rt, &failure),
    }
}
