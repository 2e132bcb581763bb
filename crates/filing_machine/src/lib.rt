//! Runs verified filing programs on messages.
//!
//! A `Case`, of the crate `mail_case`, is what a run can learn of a message. A `Machine` makes one step of a run at a
//! time, and `run` makes them all. Both do what the table machine of `filing_table` does, instruction by instruction.
//! No run of a verified program traps, and each ends within its budget; `laws` states this of the table machine itself.
#![tactic(auto)]

mod act;
mod calls;
mod fields;
mod laws;
mod machine;
mod places;
mod stack;
mod state;
mod top;
mod trace;

pub use laws::every_run_ends;
pub use machine::{EndedRun, Machine, run};
pub use mail_case::{Case, PieceCase, WholeCase};
pub use sieve_meaning::Outcome;
pub use top::Top;
pub use trace::{Step, Trace, trace_run};
