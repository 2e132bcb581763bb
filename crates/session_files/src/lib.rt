//! A whole session: from the archive that the two files of a store hold before it, to the archive that they hold
//! afterwards.
//!
//! - `opening`: the desk over the database of a connection;
//! - `serving`: a session at that desk;
//! - `session`: `serve_file`, and `serve_connection`, the same over any disk;
//! - `crashes`: what a crash between two commands leaves;
//! - `memory`: sessions over a store in memory;
//! - `streams`: sessions from standard input to standard output, as the program serves them.
//!
//! The module `Sessions` of `specs/` says what a session leads to, `Refusals` why none is served, and `Unserved` what the
//! files keep then. Which archive files hold, and how a connection to them ends, is in the crate `record_files`.
#![tactic(auto)]

mod crashes;
mod memory;
mod opening;
mod serving;
mod session;
mod streams;

pub use crashes::crash;
pub use memory::{memory_is_clean, serve_in_memory};
pub use record_files::{Closing, Hindrance};
pub use session::{EndedSession, NoSession, serve_connection, serve_file, sessions_follow};
pub use streams::{serve_memory, serve_path};
