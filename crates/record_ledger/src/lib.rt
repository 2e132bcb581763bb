//! An archive that is changed on an occasion: where its store keeps a history, each change is noted
//! there with who makes it and why; a store without one is served as it is.
//!
//! - `occasion`: who changes an archive, for what reason and when, and the line that tells so;
//! - `findings`: the lines of what is found where a history begins;
//! - `ledger`: a store with its history, or without one;
//! - `noted`: the changes of a store with a history;
//! - `refiling`: a record gets another class;
//! - `records` and `repository`: the ledger as `Records`, over which a desk delivers, and as a
//!   `Repository`, whose records are chosen and disposed of.
//!
//! In `specs/`, `Ledgers` says which archive a ledger stands for: over a history, one that the
//! history explains.
#![tactic(auto)]

mod deeds;
mod findings;
mod ledger;
mod noted;
mod occasion;
mod records;
mod refiling;
mod repository;

pub use ledger::Ledger;
pub use occasion::Occasion;
