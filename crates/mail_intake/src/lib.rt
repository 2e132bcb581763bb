//! Intake: the new messages of a Maildir are captured, one after the other, and moved once they are.
//!
//! - `mailroom`: the calls that an intake makes of a Maildir, of the archive and of those who read its log, as a trait;
//! - `reason`: why a message stays;
//! - `memory`: what was told of messages that stay, and what is to be told again;
//! - `tally`: how many messages were taken, and how many stay;
//! - `intake`: what is done with each message, and with all.
//!
//! In `specs/`, `Calls` names the calls, `Fates` says what becomes of each message and by which calls, `Order` what holds
//! of any list of such calls, `Folders` what the folders of the Maildir have, and `Telling` what is told. There is no file
//! here, no archive and no clock.
#![tactic(auto)]

mod intake;
mod mailroom;
mod memory;
mod reason;
mod tally;

pub use intake::{End, Taking, calls_are_in_order, take_in};
pub use mailroom::{Listing, Mailroom, Refusal, Taken};
pub use memory::{Memory, Told};
pub use reason::Reason;
pub use tally::Tally;
