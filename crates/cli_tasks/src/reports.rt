//! Why something was not done, for a person and as a status.

use cli_console::{Failure, Status, tell, tell_words};
use command_lines::NoCommand;
use std::process::ExitCode;

/// Writes on standard error why something was not done, unless that was written, or the reader of the output has gone.
pub fn tell_failure(rt: &HostRuntime, failure: &Failure) {
    match failure {
        Failure::NoMemory => tell_words(rt, "out of memory"),
        Failure::Told(_, text) => tell(rt, text),
        Failure::Closed | Failure::Reported(_) => {}
    }
}

/// Ends after a failure, which is written. The status is that of success where the reader of the output has gone.
pub fn end_with(rt: &HostRuntime, failure: &Failure) -> ExitCode {
    tell_failure(rt, failure);
    match failure {
        Failure::Closed => ExitCode::SUCCESS,
        Failure::NoMemory => Status::TryAgain.code(),
        Failure::Told(status, _) | Failure::Reported(status) => status.code(),
    }
}

/// Ends where the command line has nothing to do, which is written unless it was. Help is no fault.
pub fn end_without_command(rt: &HostRuntime, none: NoCommand) -> ExitCode {
    match none {
        NoCommand::Answered => return ExitCode::SUCCESS,
        NoCommand::NoMemory => return end_with(rt, &Failure::NoMemory),
        NoCommand::Told => {}
        NoCommand::Wrong(text) => {
            return end_with(rt, &Failure::by(rt.alloc(), Status::Usage, &text));
        }
        NoCommand::NotText => tell_words(rt, "a word of the command line is not UTF-8"),
        NoCommand::Unread => tell_words(rt, "the command line was not read"),
    }
    Status::Usage.code()
}
