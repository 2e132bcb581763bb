//! The scripts that can be included (RFC 6609, section 3.2), each by its name.
//!
//! A `Shelf` holds the scripts of one location. An include looks at two `Shelves`, those of a user and those that all
//! users share. They are borrowed, so any number of users can share one shelf, and none is copied. A `Library` owns two
//! shelves, and lends them. In `specs/`, `Libraries` says which script has a name, what putting one there changes, and
//! which script an include finds.
#![tactic(auto)]

mod fault;
mod library;
mod shelf;
mod shelves;

pub use fault::LibraryFault;
pub use library::Library;
pub use shelf::{MAX_SCRIPTS, Shelf};
pub use shelves::Shelves;
