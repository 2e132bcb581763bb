//! What the subcommands of `mailfile-tool` share: how they fail and end, what they read, and what they write. Also the
//! lines of a session, for people who write its commands and read its replies.
//!
//! - `failure`: why something is not done;
//! - `verdict`: what a subcommand comes to;
//! - `files`: files, folders and standard input;
//! - `output`: standard output and standard error;
//! - `lines`: the parts of a line for a person;
//! - `clock`: the time;
//! - `commands`: commands with the paths of files in place of lengths, for `frame`;
//! - `faults`: what is wrong with such a command, in words;
//! - `replies`: replies with texts after their numbers, for `explain`;
//! - `numbers`: the texts of numbers alone.
//!
//! No contract speaks of a clock, a file or a stream. So these calls are only proved to be safe, and tests of the
//! program show what they do.
#![tactic(auto)]

mod clock;
mod commands;
mod failure;
mod faults;
mod files;
mod lines;
mod numbers;
mod output;
mod replies;
mod verdict;

pub use clock::now;
pub use commands::frame;
pub use failure::Failure;
pub use files::{is_there, paths_in, read_file, read_input, write_file};
pub use lines::{push_known_place, push_place, text_of};
pub use numbers::{tell_number, tell_numbers};
pub use output::{tell, tell_words, write_data, write_line, write_text};
pub use replies::explain;
pub use verdict::Verdict;
