//! The table machine: the definition of how filing programs run. The machine (`filing_machine`) is proved to do what it
//! says, and the compiler (`filing_gen`) is proved correct by it.
//!
//! `specs/Machine` defines what each instruction does to the state of a run, and what a run is. `specs/Ends` defines how a
//! run ends and what it captures. `specs/VersionOne` has the definitions of before there were procedures. `laws` states
//! what is proved of them.
//!
//! The only code is `comparison`, which has the numbers by which a program names a match type and a comparator
//! (`specs/Comparison`).
#![tactic(auto)]

mod comparison;
mod laws;

pub use comparison::{comparison_number, comparison_of};
pub use laws::{a_run_ends_once, version_one_runs_as_before};
