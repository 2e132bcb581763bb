//! Why a call of the store is refused.

ghost use Rattle.std.specs.Prelude.{◌≡◌};
ghost use Rattle.record_store.specs.Faults.{fault_of as fault_of_error, fault_of_read as fault_of_fault, lost_or as lost_or_fault};

use record_archive::{ArchiveFault, ArchiveRefusal};
use record_tables::fault::Fault;
use sqlite::{Error, ErrorCode};

/// Why the database of a store refuses (89).
#[derive(Clone, Copy)]
pub enum Cause {
    /// `sqlite` refused, with this error.
    Sqlite(Error),
    /// A row that was written is gone or has changed, which a clean disk never shows.
    Lost,
    /// A transaction is open, which no caller can bring about.
    Busy,
}

/// Why a call of the store is refused: by the archive, by the database with its cause (89), or for no memory (99).
pub type StoreFault = ArchiveFault<Cause>;

pub(crate) const BUSY: StoreFault = ArchiveFault::Database(Cause::Busy);

pub(crate) const LOST: StoreFault = ArchiveFault::Database(Cause::Lost);

/// The refusal for an error of `sqlite`.
pub(crate) fn fault_of(error: Error) -> StoreFault
    ensures { result ≡ fault_of_error error }
{
    match error {
        Error::SqliteFailure(ErrorCode::OutOfMemory) => ArchiveFault::NoMemory,
        other => ArchiveFault::Database(Cause::Sqlite(other)),
    }
}

/// The refusal for a fault of a read.
pub(crate) fn fault_of_read(fault: Fault) -> StoreFault
    ensures { result ≡ fault_of_fault fault }
{
    match fault {
        Fault::NoMemory => ArchiveFault::NoMemory,
        Fault::Sqlite(error) => ArchiveFault::Database(Cause::Sqlite(error)),
        Fault::NoArchive => ArchiveFault::Refused(ArchiveRefusal::NoArchive),
    }
}

/// The same for a read of an archive's tables, where a row that is not an archive's counts as lost.
pub(crate) fn lost_or(fault: Fault) -> StoreFault
    ensures { result ≡ lost_or_fault fault }
{
    match fault {
        Fault::NoMemory => ArchiveFault::NoMemory,
        Fault::Sqlite(error) => ArchiveFault::Database(Cause::Sqlite(error)),
        Fault::NoArchive => LOST,
    }
}
