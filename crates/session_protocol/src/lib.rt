//! A session: commands with their payloads are read from a source, and replies are written to a sink.
//!
//! - `stream`: sources and sinks, which may fail, be interrupted, and move fewer octets than they are asked to;
//! - `tries`: reads and writes that are tried again after an interruption;
//! - `tally`: how their troubles are counted;
//! - `lines`, `words`, `dates`, `requests`, `payload`: what is read, a line with its payloads at a time;
//! - `reply`, `due_dates`: what is written, and `buffer`, which holds it until a reply ends;
//! - `commands`: what each command does at a registry, which is the desk of an office;
//! - `items`: one line with its payloads, which is read and executed;
//! - `input`, `output`: a source over a reader, which is read ahead into a `window`, and a sink over a writer;
//! - `memory`: a source and a sink for tests;
//! - `session`: `serve`, whose contract relates the octets written to the octets read and to what the registry has
//!   done;
//! - `laws`: the same in terms of the states that the registry represents, and that the program's streams know their
//!   octets over memory.
//!
//! The module `Session` of `specs/` defines the commands of an input, the runs of a registry or of the states that it
//! represents, and the octets of the answers.
#![tactic(auto)]

mod buffer;
mod commands;
mod dates;
mod day;
mod due_dates;
mod input;
mod items;
mod laws;
mod lines;
pub mod memory;
mod output;
mod payload;
mod reply;
mod requests;
mod session;
mod stream;
mod tally;
mod tries;
mod trouble;
mod window;
mod words;

pub use input::Input;
pub use laws::{sessions_refine_states, streams_over_memory_tell};
pub use output::Output;
pub use session::{COMMANDS, ServeFault, serve};
pub use stream::{Sink, Source, Trouble};
pub use tally::Tally;
