//! All that is wrong with a plan file, and where.
//!
//! `judge` answers the refusal that a session gives, and beside it what else is found. `outline` reads the keys of the
//! file with their places, `shapes` judges their kinds, `classes` the classes and schedules. `meant` finds the class that was
//! meant by a path that is none. `titles` reads what a file says of the classes of a plan: their titles, and the legal basis of
//! each.
#![tactic(auto)]

mod classes;
mod dropped;
mod findings;
mod meant;
mod outline;
mod shapes;
mod titles;

pub use dropped::{Renaming, dropped_paths, renaming_of};
pub use findings::{Finding, Report, judge};
pub use meant::meant_class;
pub use titles::{GivenTitle, TitleFinding, TitlesFault, titles_of};
