//! The judge of a history: it does the events again, one by one, to an archive with the seal of each message in its place, and
//! says whether they explain what is stored.
//!
//! In `specs/`, `Sealed` says which archive a sealed one is and what a deed makes of it, `Refilings` where a refiling is lawful,
//! `Indexes` and `Holds` what is kept beside its lists, and `Judging` what the judge has seen.
#![tactic(auto)]

mod captures;
mod contents;
mod counts;
mod deeds;
mod destruction;
mod faults;
mod findings;
mod hold_counts;
mod hold_index;
mod judge;
mod listings;
mod message_index;
mod places;
mod record_index;
mod refilings;
mod replays;
mod sealed;
mod truth;

pub use faults::Misdeed;
pub use findings::findings_restate;
pub use judge::{Flaw, Judge, judged_is_told};
pub use sealed::{NamedHold, SealedArchive, SealedMessage, SealedRecord};
