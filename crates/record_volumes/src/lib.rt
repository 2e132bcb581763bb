//! An archive of volumes: several archives in a row, which answer as one. No SQL, and no files.
//!
//! - `rows`: which volumes are missing in a row;
//! - `rolling`: into which volume a message goes;
//! - `laws`: each captured message is in one volume, and what the volumes answer, joined, is what the archive of all of them answers.
//!
//! In `specs/`, `Volumes` says what volumes answer together and which of their records are chosen, `Rows` which are missing, and
//! `Rolling` what a capture makes of them.
#![tactic(auto)]

mod laws;
mod rolling;
mod rows;

pub use laws::{
    captures_roll, choices_join, counts_join, unasked_volumes_answer_nothing, volumes_answer_alone,
};
pub use rolling::{LAST_VOLUME, Target, target_of};
pub use rows::{RowFault, judge_row};
