//! Why there is no archive of volumes, in words.

use crate::names::volume_name;
use std::alloc::{AllocError, AllocFailed, Global};
use std::{fmt, io};

/// Why the volumes of a folder cannot be had.
#[derive(Drop)]
pub enum NoVolumes {
    /// The folder has no file `volumes`.
    NoArchive,
    /// The file `volumes` is damaged.
    Damaged,
    /// No volume was begun: a run of `create` that did not end has left the folder.
    Unfinished,
    /// These volumes are missing, upwards.
    Missing(Vec<u32>),
    /// This volume is a link, and its log lies beside the link, not beside the file.
    LeftLog(u32),
    /// Another program begins a volume, or sets something in all of them.
    Busy,
    /// There is something already where a new folder or volume is to be made.
    There,
    /// A run that did not end has left the draft of the folder that is to be made.
    Left,
    /// A link is where a file is to be moved from.
    Link,
    /// What is to be moved was changed by another program, or is being changed.
    Changed,
    /// What is to be moved lies on another file system.
    Elsewhere,
    /// It was moved, and the disk failed before that lasts.
    Unsettled,
    /// The system refuses.
    System(io::Error),
    /// The system refuses something of the file of this name.
    File(String, io::Error),
    /// No memory.
    NoMemory,
}

impl From<io::Error> for NoVolumes {
    fn from(error: io::Error) -> NoVolumes {
        match error.kind() {
            io::ErrorKind::OutOfMemory => NoVolumes::NoMemory,
            io::ErrorKind::AlreadyExists => NoVolumes::There,
            io::ErrorKind::WouldBlock => NoVolumes::Busy,
            _ => NoVolumes::System(error),
        }
    }
}

impl From<AllocError> for NoVolumes {
    fn from(_error: AllocError) -> NoVolumes {
        NoVolumes::NoMemory
    }
}

impl<T: Drop> From<AllocFailed<T>> for NoVolumes {
    fn from(_error: AllocFailed<T>) -> NoVolumes {
        NoVolumes::NoMemory
    }
}

/// Writes that the log of a volume lies beside a link, and what to do.
fn write_left_log<W: fmt::Write>(f: &mut fmt::Formatter<W>, volume: u32) -> fmt::Result {
    write!(
        f,
        "{volume:04}.db is a link, but its log {volume:04}.db-wal is not beside the file; move it there, under the name of the file with -wal"
    )
}

/// How many missing volumes are named.
const NAMED: usize = 8;

/// Writes which volumes are missing.
fn write_missing<W: fmt::Write>(f: &mut fmt::Formatter<W>, volumes: &[u32]) -> fmt::Result {
    f.write_str("missing:")?;
    for volume in volumes.iter().take(NAMED) {
        write!(f, " {volume:04}.db")?;
    }
    if volumes.len() > NAMED {
        let more = volumes.len() - NAMED;
        write!(f, " and {more} more")?;
    }
    f.write_str("; put it back, or a link to where it is")
}

impl NoVolumes {
    /// Why the file of a name cannot be had.
    pub(crate) fn of_file(alloc: Global, name: &str, error: io::Error) -> NoVolumes {
        match (NoVolumes::from(error), String::from_str(alloc, name)) {
            (NoVolumes::System(error), Ok(name)) => NoVolumes::File(name, error),
            (cause, _) => cause,
        }
    }

    /// Why the file of a volume cannot be had.
    pub(crate) fn of_volume(alloc: Global, volume: u32, error: io::Error) -> NoVolumes {
        match volume_name(alloc, volume) {
            Ok(name) => NoVolumes::of_file(alloc, name.as_str(), error),
            Err(AllocError) => NoVolumes::NoMemory,
        }
    }

    /// The words of a cause that has no more to say.
    fn words(&self) -> &'static str {
        match self {
            NoVolumes::NoArchive => "the file volumes of the folder is gone; restore it",
            NoVolumes::Damaged => "the file volumes of the folder is damaged; restore it",
            NoVolumes::Unfinished => {
                "no volume in it: create was cut off; remove the folder, and begin again"
            }
            NoVolumes::Busy => {
                "another program begins a volume of this archive, sets something in all of them, or copies them"
            }
            NoVolumes::There => "there is something already",
            NoVolumes::Left => {
                "a run that did not end has left a folder beside this path (.mailfile-new); remove it first"
            }
            NoVolumes::Link => "a link; name the file that it leads to",
            NoVolumes::Changed => "another program has changed it meanwhile; do it once more",
            NoVolumes::Elsewhere => {
                "on another file system than the new folder; copy it to that one, and adopt the copy"
            }
            NoVolumes::Unsettled => {
                "the store was moved here, but the disk failed; a power cut may put it back"
            }
            NoVolumes::NoMemory => "out of memory",
            NoVolumes::Missing(_)
            | NoVolumes::LeftLog(_)
            | NoVolumes::System(_)
            | NoVolumes::File(..) => "refused",
        }
    }
}

impl fmt::Display for NoVolumes {
    fn fmt<W: fmt::Write>(&self, f: &mut fmt::Formatter<W>) -> fmt::Result {
        match self {
            NoVolumes::System(error) => write!(f, "{error}"),
            NoVolumes::File(name, error) => write!(f, "{name}: {error}"),
            NoVolumes::Missing(volumes) => write_missing(f, volumes.as_slice()),
            NoVolumes::LeftLog(volume) => write_left_log(f, *volume),
            cause => f.write_str(cause.words()),
        }
    }
}
