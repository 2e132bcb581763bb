//! What lies at the path of a store, before it is opened, and how programs come to it.
//!
//! - `file_system`: the calls that are made of the system, as a trait, so that a contract can say which were;
//! - `system`: the system's own file system;
//! - `opening`: the opening of the files of a store, with a pool of pages for their size;
//! - `places`: what lies at a path, and new files;
//! - `standing`: what is judged of a file, as values;
//! - `fault`: why there is no place for a store.
//!
//! The module `Calls` of `specs/` names the calls, `Looks` says which files are found right, and `Pool` how many pages of a
//! file are kept in memory. Code that has a `FileSystem`, and no `HostRuntime`, reaches files by it alone.
#![tactic(auto)]

mod fault;
mod file_system;
mod opening;
mod places;
mod standing;
mod system;

pub use fault::NoPlace;
pub use file_system::FileSystem;
pub use places::{has_log, is_there, judge_log, judge_place, look_at, make_file, make_ready};
pub use standing::Standing;
pub use system::System;
