//! What Sieve scripts mean (RFC 5228, with RFC 3894 and RFC 6609): definitions that several crates share.
//!
//! There is little code here: readings of a tree that more than one crate needs, the levels of includes, and the outcome of
//! a run with its faults. The files of `specs/`, in the order to read them:
//!
//! - `Matching`: comparators and match types, as relations and as functions that compute the same;
//! - `Case`: what a run can learn about a message and the plan of classes;
//! - `Program`: scripts as they run, with each `if` and its branches in one piece;
//! - `Reading`: from the tree of the grammar (`sieve_syntax`) to a program;
//! - `Branching`, `Parts`: how a command of the tree relates to the branches before it, and its place in the program;
//! - `RunFaults`: the numbers of the faults with which a run can end;
//! - `Truth`, `Meaning`, `Outcome`: tests, runs, and the classes that a run captures;
//! - `Scripts`: what the code's script names and includes mean;
//! - `Weight`: a bound on the size of a script's code;
//! - `Procedures`: how included scripts can share their code, and what that weighs;
//! - `Sharing`: why sharing is right;
//! - `TooHeavy`: which scripts are too heavy to be run, and the budgets of all others.
//!
//! `laws` states what is proved of these definitions.
#![tactic(auto)]

pub mod branches;
mod laws;
mod level;
mod matching;
mod outcome;
pub mod reading;
mod run_fault;
mod scripts;
mod words;

pub use laws::{
    contains_is_decided, eight_may_be_active, equality_is_decided, parts_are_read,
    pattern_is_decided, reaching_is_decided, shared_scripts_are_alike,
};
pub use level::{Above, Deepest, Level, Levels};
pub use matching::{Comparator, Item, MatchType};
pub use outcome::{Outcome, fault_alone, outcome_at_end};
pub use run_fault::RunFault;
pub use scripts::{Include, Location, ScriptName};
pub use words::{CommandWord, TestWord, command_word, is_same_word, test_word};
