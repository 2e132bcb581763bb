//! The store in the file at a path: how it is made and opened, and why it cannot be had.
//!
//! - `opening`: a store over files, and its end;
//! - `archives`: the store in the file at a path, as programs have it, and new ones;
//! - `drafts`: a new store before it has its name;
//! - `removal`: the removal of one that was not finished;
//! - `fault`: why there is no store, in words.
//!
//! Which archive files hold, and how a connection to them ends, is in the crate `record_files`; the calls that are made of
//! the system, and what lies at a path, are in `record_places`. The module `Making` of `specs/` says by which calls a store
//! is made and gets its name.
#![tactic(auto)]

mod archives;
mod drafts;
mod fault;
mod opening;
mod removal;

pub use archives::{create_archive, lay_archive, open_archive};
pub use drafts::{draft_for, give_place};
pub use fault::NoStore;
pub use opening::{adopt_found, close_store, open_store};
pub use removal::remove_files;
