//! Which records a command is about, and which a disposal destroys, without a word of how records are kept.
//!
//! In `specs/`, `Choices` says which records are chosen, `Entries` what a list shows of a record, `Views` what an entry
//! shows of a choice, `Walks` how pages are joined, and `Disposals` what a disposal destroys.
#![tactic(auto)]

mod choice;
mod destruction;
mod disposal;
mod entry;
mod pages;
mod questions;
mod reasons;
mod registrar;
mod repository;

pub use choice::{Choice, Holder, Span, is_within};
pub use destruction::{Destroyed, End};
pub use disposal::{DisposeFault, Disposed, asked_lines, dispose, these_and_no_other};
pub use entry::RecordEntry;
pub use pages::{Page, WalkFault, choose_page, walks_join};
pub use questions::{Anything, Judge};
pub use reasons::{Reason, destroys, why_not};
pub use registrar::Registrar;
pub use repository::Repository;
