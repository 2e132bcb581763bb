//! The command lines of the three programs, read into types: what a program is asked to do, or why that is nothing.
//!
//! - `streams`: the standard streams of the process;
//! - `table`: subcommands with their words, as data; `reading`: the words that `clap` finds by them;
//! - `days`: days as they are typed;
//! - `hints`: the option that is meant by a word that is none;
//! - `wrapping`: help, at most 80 columns wide;
//! - `session`, `archives` and `tools`: the command lines of `mailfile`, `mailfile-store` and `mailfile-tool`.
//!
//! No other crate calls `clap`, whose values take long to prove.
#![tactic(auto)]

pub mod archives;
mod days;
mod hints;
mod reading;
pub mod session;
mod streams;
mod table;
pub mod tools;
mod wrapping;

pub use reading::{NoCommand, words_of_process};
pub use streams::fill_streams;
