//! A copy of an archive in a new database, which has the rows of the archive and no others.
//!
//! The new database is written from rows alone, so nothing of what was destroyed gets into it.
#![tactic(auto)]

mod copy;
mod fault;
mod fill;
mod messages;
mod source;
mod writes;

pub use copy::copy_archive;
pub use fault::CopyFault;
