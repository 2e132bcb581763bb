//! The command line of `mailfile`, the program of sessions.

ghost use Rattle.std.specs.Prelude.{◌≡◌, codes, IfOk, option_map, string_bytes};
ghost use Rattle.clap.specs.Matches.{found_of};
ghost use Rattle.clap.specs.Simple.{app_of};
ghost use Rattle.command_lines.specs.Asked.{value_in};
ghost use Rattle.command_lines.specs.SessionTable.{session_app, IsSession};
ghost use Rattle.command_lines.specs.Typed.{typed};

use crate::reading::{NoCommand, shown_words, tell_refusal, value_of, words_of_process};
use crate::table::{OPTION, Values, Word, arguments_of, bare_command};
use clap::{ArgMatches, Command};
use std::alloc::{AllocError, Global};
use std::process::ExitCode;

/// The status where the command line is refused.
const STATUS_USAGE: u8 = 2;

/// The name of the option of the store.
const STORE: &str = "store";

/// The words of the command line.
const WORDS: &[Word] = &[Word {
    name: STORE,
    value: "FILE",
    help: Some("The file that keeps the store; without it the store is in memory"),
    ..OPTION
}];

/// The options of a command line.
#[derive(Drop)]
pub struct CommandLine {
    /// The path of the file that keeps the store, as it was given. Without one the store is in memory.
    pub store: Option<String>,
}

/// The command line as `clap` is to parse it.
fn command<'a>(alloc: Global) -> Result<Command<'a>, AllocError>
    ensures { IfOk result (λ r. app_of r ≡ session_app) }
{
    let arguments = arguments_of(alloc, WORDS, &[], Values::Plain)?;
    bare_command(
        alloc,
        "mailfile",
        "Files e-mail as records: serves a session from standard input to standard output",
    )?
    .args(arguments)
}

/// The options that were found.
fn options_in(alloc: Global, matches: &ArgMatches<'_>) -> Result<CommandLine, NoCommand>
    ensures { IfOk result (λ line. option_map string_bytes line.store
        ≡ value_in (found_of matches.now) (codes "store")) }
{
    let store = match value_of(matches, STORE) {
        Some(path) => Some(String::from_str(alloc, path)?),
        None => None,
    };
    Ok(CommandLine { store })
}

/// Reads words. What `clap` reports of them is told of them as they are shown, since a line end in a word would begin a line of
/// the report.
fn read_words(
    rt: &HostRuntime,
    words: &[String],
    shown: &[String],
) -> Result<CommandLine, NoCommand>
    ensures { IfOk result (IsSession (typed words.now)) }
{
    let alloc = rt.alloc();
    if let Ok(matches) = command(alloc)?.try_get_matches_from(words) {
        return options_in(alloc, &matches);
    }
    Err(tell_refusal(rt, command(alloc)?, shown))
}

/// Reads the command line of the process. Help, and why a word is refused, are printed.
pub fn read_command_line(rt: &HostRuntime) -> Result<CommandLine, NoCommand> {
    let words = words_of_process(rt)?;
    let shown = shown_words(rt.alloc(), words.as_slice())?;
    read_words(rt, words.as_slice(), shown.as_slice())
}

/// Ends without a session: tells of a lack of memory, which alone is not told yet.
pub fn end_without_session(rt: &HostRuntime, fault: NoCommand) -> ExitCode {
    match fault {
        NoCommand::Answered => return ExitCode::SUCCESS,
        NoCommand::NoMemory => {
            let _ = eprintln!(rt; "error: out of memory");
        }
        NoCommand::Told | NoCommand::NotText | NoCommand::Unread | NoCommand::Wrong(_) => {}
    }
    ExitCode::from(STATUS_USAGE)
}
