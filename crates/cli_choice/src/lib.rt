//! From the words of a command line to the records that it is about.
//!
//! - `typed`: the choice that is typed, and which numbers are typed one by one;
//! - `volumes`: the same of one volume, where the archive has volumes;
//! - `questions`: what is asked of messages;
//! - `search`: the records of a choice, page by page, and beside them those whose fields could not be read in full;
//! - `holds` and `disposals`: which of the chosen records a hold is placed on or ended, and which are destroyed.
//!
//! The specs have the same names; that of `volumes` is `TypedVolumes`. No contract speaks of a terminal; the subcommands above write what they find.
#![tactic(auto)]

mod disposals;
mod holds;
mod questions;
mod search;
mod typed;
mod volumes;

pub use disposals::{Meant, meant_of};
pub use holds::{Change, is_meant};
pub use questions::{Answer, Questions, QuestionsFault};
pub use search::{Beside, FoundPage, search_page};
pub use typed::{bounds_of, choice_of, is_single, not_found, numbers_of, set_of};
pub use volumes::choice_in_volume;
