//! What `mailfile-store` reads from files and folders.
//!
//! - `payloads`: what a file or a stream has, up to a limit;
//! - `maildir`: the folders of a Maildir;
//! - `reading`: the rules of an officer: the program, and the scripts that it reaches by its includes;
//! - `setting`: these scripts as the rules of a registry;
//! - `fault`: why an officer has no rules.
#![tactic(auto)]

mod fault;
pub mod maildir;
mod payloads;
mod reading;
mod setting;

pub use fault::RulesFault;
pub use payloads::{payload_of_file, payload_of_no_link, read_payload};
pub use reading::{Rules, Script, read_rules};
pub use setting::set_rules;
