//! Where old mail lies in files: mboxes, folders of `.eml` files, and Maildirs.
//!
//! - `sources`: what is at a path;
//! - `files`: the files of a folder that have a message each;
//! - `passed`: what lies beside them and is not taken;
//! - `boxes`: the messages of an mbox in a file, one at a time.
//!
//! No contract knows what a file system does. So these calls are only proved to be safe, and tests show what they do. Which messages an
//! mbox has is said by `mail_boxes`.
#![tactic(auto)]

mod boxes;
mod files;
mod passed;
mod sources;

pub use boxes::{BoxFault, BoxReader};
pub use files::MailFiles;
pub use passed::PassedOver;
pub use sources::{Source, SourceFault, maildir_around, source_at};
