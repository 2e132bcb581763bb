//! What `mailfile-store` does with histories.
//!
//! - `author`: who changes an archive, and for what reason; `opening`: its ledger, opened on that occasion;
//! - `replaying` and `restating`: a history that is done again before a change, and what another program has left, noted as
//!   found; `differences`: what it has done, in words; `findings`: what was found, and whether a person has accepted it;
//!   `reasons`: what a person decides of a history itself;
//! - `beginning`: what is there in a store, as a history begins with it;
//! - `pages`: the events of a history, a page at a time; `watching`: they are judged as they are read;
//! - `chosen`: which events are asked for; `missing`: of which numbers none tells; `printing`: these, as lines or as JSON;
//!   `fields`: what a deed tells, as named fields; `days` and `notes`: parts of lines;
//! - `cases`: what the hold of each name keeps in a store, and how that began; `all_cases`: the same in several stores, as lines or as
//!   JSON;
//! - `refiled`: by which event a record got its class; `titles`: what classes are called, and the legal basis of their schedules;
//! - `certificates`: those of records that were destroyed; `untold`: records that are, and of which no event tells that;
//! - `captured`: what is captured for an officer already;
//! - `seals`: of messages, as events tell them, and what a message is beside the one that was captured; `stored`: the seals of
//!   those that a store has;
//! - `copies`: a history that another store takes over; `damaged`: the same where it is not whole; `extracts`: the events of
//!   records that are exported;
//! - `judging` and `comparison`: whether a history is whole, has a mark that was noted elsewhere, and explains its archive;
//!   `plans`: whether two plans are the same; `flaws`: what stands against an event; `marks`: which event has a mark that
//!   begins so.
//!
//! Of what it writes, contracts speak of the events that `history` prints, of the line of a certificate and of the texts of cases; of the
//! rest, tests of the program show it.
#![tactic(auto)]

mod all_cases;
mod author;
mod beginning;
mod captured;
mod cases;
mod certificates;
mod chosen;
mod comparison;
mod copies;
mod damaged;
mod days;
mod differences;
mod extracts;
mod fields;
mod findings;
mod flaws;
mod judging;
mod marks;
mod missing;
mod notes;
mod opening;
mod pages;
mod plans;
mod printing;
mod reasons;
mod refiled;
mod replaying;
mod restating;
mod seals;
mod stored;
mod titles;
mod untold;
mod watching;

pub use all_cases::{AllCases, write_cases};
pub use author::Author;
pub use beginning::begin_history;
pub use captured::captured_for;
pub use certificates::write_certificates;
pub use copies::Lines;
pub use damaged::Whole;
pub use extracts::{Extract, Subjects};
pub use findings::findings_are_told;
pub use judging::judge_history;
pub use marks::event_with_mark;
pub use notes::{Beginning, beginning_in, is_altered, notes_after, notes_of};
pub use opening::{Purpose, StoreLedger, open_history, open_ledger, open_noted, open_with_seals};
pub use plans::is_same_plan;
pub use printing::{HistoryText, PrintedHistory, write_history};
pub use reasons::{accept_findings, are_reasons_required, note_reasons};
pub use refiled::last_refiling;
pub use seals::{Fidelity, Seals, altered_words};
pub use stored::StoredSeals;
pub use titles::{Titles, note_titles, write_titles};
