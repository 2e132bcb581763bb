//! A plain evaluator of Sieve scripts (RFC 5228, with RFC 3894 and RFC 6609). It walks over the tree of a script and of
//! those that it includes, with no image and no machine between. Mailfile itself runs scripts by `filing_gen` and
//! `filing_machine`; with this crate a program can compare the two, and let an observer follow a run.
//!
//! In `specs/`, `Case` says what a case means, `Runs` what each part of a run has to answer, and `Acts` what single
//! commands do. The modules from the bottom: `case` (the message), `observer` (what is reported), `truth` (tests),
//! `filing` and `scope` (what a run keeps), `entry`, `includes`, `commands`, `levels`, `outcome`, `laws`.
#![tactic(auto)]

mod case;
mod commands;
mod entry;
mod filing;
mod includes;
mod laws;
mod levels;
mod observer;
mod outcome;
mod scope;
mod truth;

pub use case::{BorrowedCase, BorrowedField};
pub use laws::acts_are_done;
pub use observer::{Act, Inclusion, Observer};
pub use outcome::{evaluate, evaluate_observed};
pub use truth::{has_listed_key, has_listed_name, is_only_true};
