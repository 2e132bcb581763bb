//! The two files of an archive, a database and its log: which archive they hold, and how a connection to them ends.
//!
//! The module `Files` of `specs/` says which archive files hold, `Closing` what they hold of a connection's database, and
//! `Copying` what it means to copy a log into its database file.
#![tactic(auto)]

mod closing;
mod copying;

pub use closing::{Closing, Hindrance, close, leave};
