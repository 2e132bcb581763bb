//! Reports on runs: why a message is filed where it is, for people.
//!
//! The evaluator of `sieve_evaluator` reports to a `Narrator` what a run comes to; `tool_places` says where the
//! commands and tests stand. A `Report` shows both, in lines (`report_text`) or as JSON (`report_json`).
//!
//! The modules from the bottom: `nodes` (the commands and tests of a script in one list) and `book` (all scripts of a
//! run, with places), `narrator` (what a run comes to), `words`,
//! `comparisons`, `room` and `details` (commands, tests and what these looked at), `way`, `fields`, `schedules`,
//! `verdict` (parts of a report), `report`, `data` (as JSON), `events` (so that two runs can be compared).
#![tactic(auto)]

mod book;
mod comparisons;
mod data;
mod details;
mod digests;
mod events;
mod fields;
mod narrator;
mod nodes;
mod report;
mod room;
mod schedules;
mod verdict;
mod way;
mod words;

pub use book::{Book, Mark, Page, Source};
pub use comparisons::{compared_fields, deciding_field, deciding_key};
pub use data::report_json;
pub use digests::sha256_text;
pub use events::{Event, events_of};
pub use narrator::{Narration, Narrator, Row, Told};
pub use nodes::{Node, Thing};
pub use report::{Digest, Report, report_text};
pub use room::Room;
