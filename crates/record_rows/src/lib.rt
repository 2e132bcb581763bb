//! Rows of an archive's tables: those of a plan, the plan of such rows, and whether records, messages and
//! holds are an archive's.
#![tactic(auto)]

mod archive_rules;
mod first;
mod plans;
mod rules;

pub use archive_rules::are_rows_of;
pub use first::{classes_without_texts, plan_of_texts, rules_of_texts};
pub use plans::plan_of_rows;
pub use rules::{classes_of, rules_of};
