//! The commands of an office that captures messages as records: which answers each may have, and what it changes.
//!
//! In `specs/`, `Office` defines the commands that have nothing to do with captures in flight, `Standing` all commands,
//! and `Pinning` what a capture makes of the state at its beginning. `ArchiveAnswers` says which answers come from the
//! archive, so that they rest on its disk. A session talks to a `Registry`, each call of which is one of these
//! commands. `laws` states what the runs of pinned programs end with.
#![tactic(auto)]

mod fault;
mod laws;
mod limits;
mod payload;
mod registry;
mod results;

pub use fault::{DeskFault, Refusal};
pub use laws::pinned_runs_end_alone;
pub use limits::{MAX_IMAGE_OCTETS, MAX_MESSAGE_OCTETS, MAX_PLAN_OCTETS, MAX_SCRIPT_OCTETS};
pub use payload::Payload;
pub use registry::Registry;
pub use results::{Capture, Turn};
