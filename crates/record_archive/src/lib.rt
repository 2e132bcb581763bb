//! An archive of messages and records: what it is, what each command makes of it, and why a command is refused.
//!
//! `Archive` in `specs/` has the definitions. How an archive is kept is no matter of this crate: `record_store` keeps one
//! in a database.
#![tactic(auto)]

mod fault;
mod line;
mod paths;
mod records;

pub use fault::{ArchiveFault, ArchiveRefusal};
pub use line::Line;
pub use paths::are_classes;
pub use records::Records;
