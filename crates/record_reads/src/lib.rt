//! Reads of the tables of an archive, as typed rows.
#![tactic(auto)]

mod cells;
pub mod due_records;
pub mod events;
pub mod live_bodies;
pub mod lookup;
pub mod pages;
pub mod placed_holds;
mod query;
pub mod read;
pub mod stored_dues;
mod typed;
