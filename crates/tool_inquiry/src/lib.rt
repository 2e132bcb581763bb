//! What becomes of a message by an officer's scripts, and why: a run with its report, and where two runs part.
//!
//! - `scripts`: the scripts of a run, with the library that they make;
//! - `answers`: the run of the main script's image, with the report on it by the evaluator, whose outcome is the same;
//! - `culprits`: the command with which a run ended in a fault;
//! - `outcomes`: an outcome in the lines of a session;
//! - `partings`: the first event in which two runs differ.
#![tactic(auto)]

mod answers;
mod culprits;
mod faults;
mod outcomes;
mod partings;
mod scripts;

pub use answers::{Answer, Form, Inquiry, Written, answer_to, open_case};
pub use culprits::{Culprit, Faulted, fault_of};
pub use faults::InquiryFault;
pub use outcomes::{is_filed_in, outcome_line, outcome_text};
pub use partings::{Parting, first_parting};
pub use scripts::{ScriptFile, Scripts, compiled, library_of, script_name, script_of};
