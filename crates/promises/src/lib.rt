//! Promises of Mailfile on six subjects: images, scripts, questions on messages, records with their due dates, the order
//! of turns, and tickets. Each is the contract of a function without effect, which only calls the laws of other crates that its proof
//! takes. To know them, read this crate and the definitions that its contracts cite. Destruction, files and crashes,
//! deliveries, copies, the tools, and how lines are read and replies written are subjects of other crates.
//!
//! - `images`: an image that is accepted runs to its end without a trap and within its budget, and a compiled script
//!   captures what the script means.
//! - `reading`: whatever the checker accepts is read by the meaning of scripts as it stands.
//! - `questions`: a question finds the messages that a rule with the same test keeps, whatever classes are open.
//! - `records`: a capture makes a record in each class of its outcome and in no other. Each line of a record gives its
//!   due day, which comes the period of its class after the day of the capture, or at the end of the year in which that
//!   period ends, where the schedule says so. A due list is whole.
//! - `laws`: the turns of captures do not matter. What is refused changes nothing. What stood at the beginning of a
//!   capture holds for it to its end.
//! - `turns`: what a session answers about its captures in flight and their tickets.
//! - `lines`: the lines that a session reads are a session of commands; and the law of turns over lines, and over the
//!   octets that are read and written.
//!
//! The laws of sessions are about states of an office and the steps that commands make between them (`Standing` and
//! `Step` of `desk_commands`). Each call of a desk makes such a step, by its contract (`Calls`): on any disk, or
//! where its answer comes from the archive, on a disk that returns what was written to it. What a session reads and
//! writes is then a run of such steps (`serve` and `sessions_refine_states` of `session_protocol`). `specs/Runs` says
//! what a session is, `specs/Flights` which captures are in flight, `specs/Serial` what is struck of a session,
//! `specs/Alike` which answers say the same, and `specs/RefusedCalls` what a refusal by a registry leaves.
#![tactic(auto)]

mod images;
mod laws;
mod lines;
mod questions;
mod reading;
mod records;
mod turns;

pub use images::{
    accepted_images_run_to_their_end, images_are_refused_by_one_number,
    scripts_capture_what_they_mean,
};
pub use laws::{
    captures_are_pinned, equal_after_striking, refusals_change_nothing, turns_do_not_matter,
};
pub use lines::{equal_lines_after_striking, lines_are_sessions};
pub use questions::{a_question_finds_what_a_rule_keeps, tests_see_no_class};
pub use reading::checked_scripts_are_read;
pub use records::{dry_runs_store_nothing, due_lists_are_whole, finished_captures_are_whole};
pub use turns::{beginnings_are_refused_exactly, tickets_are_looked_up_exactly, turns_add_up};
