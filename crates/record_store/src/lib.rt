//! An archive of messages and records, kept in a database.
#![tactic(auto)]

mod adopt;
mod beside;
mod captures;
mod changes;
mod classes;
mod destruction;
mod dues;
mod entries;
mod events;
mod fault;
mod holds;
mod messages;
mod records;
mod refiling;
mod repository;
mod revisions;
mod store;

pub use fault::{Cause, StoreFault};
pub use record_adoption::Counts;
pub use record_archive::{ArchiveRefusal, Line, are_classes};
pub use record_choice::RecordEntry;
pub use record_reads::events::EventRow;
pub use record_tables::event_layout::EventLayout;
pub use store::Store;
