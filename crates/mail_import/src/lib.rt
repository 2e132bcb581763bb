//! Import: messages of old mail are captured, each once, at the moments that their headers give them.
//!
//! - `room`: the calls that an import makes of files with old mail, of the archive and of those who are told, as a trait;
//! - `known`: which messages are captured already, in a store or in several volumes;
//! - `fate`: what becomes of a message, by what is known;
//! - `tally`: how many messages were taken, and how many not;
//! - `message`: what is done with a message;
//! - `import`: what is done with the messages of all sources;
//! - `rounds`: what an import finds that is gone on with.
//!
//! In `specs/`, `Known` says which record a message has already, `Fates` what becomes of a message, `Calls` names the calls, `Findings`
//! says what is done with all, in order, and `Sources` which messages the sources have. There is no file here, no archive and no clock.
#![tactic(auto)]

mod fate;
mod import;
mod known;
mod message;
mod room;
mod rounds;
mod tally;

pub use fate::Stay;
pub use import::import_sources;
pub use known::{AllKnown, FirstRecord, StoreKnown};
pub use message::{Progress, Terms};
pub use room::OldMailroom;
pub use rounds::rounds_find_each_once;
pub use tally::ImportTally;
