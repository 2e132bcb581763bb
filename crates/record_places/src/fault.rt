//! Why there is no place for a store.

use std::alloc::AllocError;
use std::io::{self, ErrorKind};

/// Why a store cannot be at a path. `Display` is left to programs, which say it in words of their own.
#[derive(Clone, Copy, Drop)]
pub enum NoPlace {
    /// There is a file at the path, where a new one is to be made.
    There,
    /// A log or a journal lies beside the path of a new file: the file that it belongs to was moved or removed.
    StrayLog,
    /// The log beside the file lets others read or write than the file does.
    OpenLog,
    /// What is at the path is not a regular file, or it has a second name.
    NoFile,
    /// The file has no octet.
    Empty,
    /// The file does not begin as a database.
    NoDatabase,
    /// The system refused.
    System(io::Error),
}

impl From<io::Error> for NoPlace {
    fn from(error: io::Error) -> NoPlace {
        match error.kind() {
            ErrorKind::AlreadyExists => NoPlace::There,
            _ => NoPlace::System(error),
        }
    }
}

impl From<AllocError> for NoPlace {
    fn from(_error: AllocError) -> NoPlace {
        NoPlace::System(io::Error::from(ErrorKind::OutOfMemory))
    }
}
