//! Why there is no store, in words.

use record_places::NoPlace;
use record_store::{ArchiveRefusal, Cause, StoreFault};
use sqlite::{Error, ErrorCode};
use std::alloc::AllocError;
use std::{fmt, io};

/// Why there is no store.
#[derive(Clone, Copy)]
pub enum NoStore {
    /// There is no file at the path.
    NotThere,
    /// There is a file at the path, where a new one is to be made.
    There,
    /// A log lies beside the path of a new file: the file that it belongs to was moved or removed.
    StrayLog,
    /// A new store for the path was begun, and never finished.
    Unfinished,
    /// The system refuses the file or its folder.
    System(io::Error),
    /// What is at the path is not a regular file, or it has a second name.
    NoFile,
    /// The log beside the file lets others read or write than the file does.
    OpenLog,
    /// Another program has the file.
    Busy,
    /// The file has no octet.
    Empty,
    /// The file does not begin as a database.
    NoDatabase,
    /// A page is damaged, or the rows break the database's own schema. No log lies beside it.
    Damaged,
    /// The same, and the file and its log may not belong together.
    DamagedOrMixed,
    /// The database has no table of an archive.
    NoTables,
    /// Tables of an archive's names have other columns, or some are missing.
    OtherTables,
    /// A table of the database has a foreign key, beside which nothing is promised of an archive.
    ForeignKey,
    /// 88: the rows of the tables are no archive's.
    NoArchive,
    /// The disk is full, or the file as long as its format allows.
    Full,
    /// The disk failed.
    Disk,
    /// 89: the database refused, for this cause.
    Database(Error),
    /// 99: no memory.
    NoMemory,
}

impl NoStore {
    /// Why files at a path were not opened.
    pub(crate) fn of_opening(error: Error, has_log: bool) -> NoStore {
        match error {
            Error::SqliteFailure(ErrorCode::DatabaseBusy) => NoStore::Busy,
            Error::SqliteFailure(ErrorCode::OutOfMemory) => NoStore::NoMemory,
            Error::SqliteFailure(ErrorCode::DiskFull) => NoStore::Full,
            Error::SqliteFailure(ErrorCode::SystemIoFailure | ErrorCode::Closed) => NoStore::Disk,
            Error::SqliteFailure(ErrorCode::NotADatabase | ErrorCode::DatabaseCorrupt) => {
                if has_log {
                    NoStore::DamagedOrMixed
                } else {
                    NoStore::Damaged
                }
            }
            Error::SqliteFailure(ErrorCode::CannotOpen) => NoStore::NoFile,
            error => NoStore::Database(error),
        }
    }
}

impl From<StoreFault> for NoStore {
    fn from(fault: StoreFault) -> NoStore {
        match fault {
            StoreFault::Refused(ArchiveRefusal::NoArchive) => NoStore::NoArchive,
            StoreFault::Refused(_) => NoStore::OtherTables,
            StoreFault::Database(Cause::Sqlite(error)) => NoStore::of_opening(error, true),
            StoreFault::Database(Cause::Lost | Cause::Busy) => NoStore::DamagedOrMixed,
            StoreFault::NoMemory => NoStore::NoMemory,
        }
    }
}

impl From<NoPlace> for NoStore {
    fn from(cause: NoPlace) -> NoStore {
        match cause {
            NoPlace::There => NoStore::There,
            NoPlace::StrayLog => NoStore::StrayLog,
            NoPlace::OpenLog => NoStore::OpenLog,
            NoPlace::NoFile => NoStore::NoFile,
            NoPlace::Empty => NoStore::Empty,
            NoPlace::NoDatabase => NoStore::NoDatabase,
            NoPlace::System(error) => NoStore::from(error),
        }
    }
}

impl From<AllocError> for NoStore {
    fn from(_error: AllocError) -> NoStore {
        NoStore::NoMemory
    }
}

impl From<io::Error> for NoStore {
    fn from(error: io::Error) -> NoStore {
        match error.kind() {
            io::ErrorKind::NotFound => NoStore::NotThere,
            io::ErrorKind::OutOfMemory => NoStore::NoMemory,
            io::ErrorKind::AlreadyExists => NoStore::There,
            io::ErrorKind::StorageFull | io::ErrorKind::QuotaExceeded => NoStore::Full,
            _ => NoStore::System(error),
        }
    }
}

impl NoStore {
    /// The words of a cause that has no other cause beneath.
    fn words(&self) -> &'static str {
        match self {
            NoStore::NotThere => "no such file; create makes a new store",
            NoStore::There => "there is a file already",
            NoStore::StrayLog => {
                "a log (-wal) or journal of another file lies beside this path; move it away first"
            }
            NoStore::Unfinished => {
                "a run that did not end has left a new store beside this path (.mailfile-new); remove it first"
            }
            NoStore::NoFile => {
                "the file cannot be opened for writing: look for the permissions of its folder and of its log (-wal), for a second name of the file (a hard link), and for a journal that sqlite3 has left"
            }
            NoStore::OpenLog => {
                "the log beside the file (-wal) is open to others than the file: give it the owner and the permissions of the file, or move it away if it is another file's"
            }
            NoStore::Busy => "another program has the file",
            NoStore::Empty => "no archive: the file is empty",
            NoStore::NoDatabase => "no archive: the file is no database of SQLite",
            NoStore::Damaged => "a page of the file is damaged, or was written by another program",
            NoStore::DamagedOrMixed => {
                "a page is damaged or was written by another program, or the log beside the file (-wal) is that of another file"
            }
            NoStore::NoTables => "no archive: the database has no table of one",
            NoStore::OtherTables => "no archive: the tables of the database are not those of one",
            NoStore::ForeignKey => {
                "a table of the database has a foreign key; beside such a table no archive is opened"
            }
            NoStore::NoArchive => "no archive: the rows of the tables are not those of one",
            NoStore::Full => "the disk is full",
            NoStore::Disk => "the disk failed",
            NoStore::System(_) | NoStore::Database(_) => "refused",
            NoStore::NoMemory => "out of memory",
        }
    }
}

impl fmt::Display for NoStore {
    fn fmt<W: fmt::Write>(&self, f: &mut fmt::Formatter<W>) -> fmt::Result {
        match self {
            NoStore::System(error) => write!(f, "{error}"),
            NoStore::Database(error) => write!(f, "{error}"),
            cause => f.write_str(cause.words()),
        }
    }
}
