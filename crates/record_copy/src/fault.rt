//! Why an archive is not copied.

use record_tables::fault::Fault;
use sqlite::{Error, ErrorCode};
use std::alloc::AllocError;

/// Why an archive is not copied.
#[derive(Clone, Copy)]
pub enum CopyFault {
    /// No memory.
    NoMemory,
    /// The old database refused, with this error.
    Source(Error),
    /// The new database refused, with this error.
    Target(Error),
    /// A row of the old database is gone or is no archive's, which a clean disk never shows.
    Lost,
    /// A transaction is open at one of the two.
    Busy,
    /// The new database has tables beside those of an archive.
    OtherTables,
}

impl From<Fault> for CopyFault {
    ghost use Rattle.record_copy.specs.Faults.{of_source};
    ghost use Rattle.std.specs.Prelude.{◌≡◌};

    ghost from_gives = { λ e f. f ≡ of_source e };

    fn from(fault: Fault) -> CopyFault {
        match fault {
            Fault::NoMemory => CopyFault::NoMemory,
            Fault::Sqlite(error) => CopyFault::Source(error),
            Fault::NoArchive => CopyFault::Lost,
        }
    }
}

impl From<Error> for CopyFault {
    ghost use Rattle.record_copy.specs.Faults.{of_target};
    ghost use Rattle.std.specs.Prelude.{◌≡◌};

    ghost from_gives = { λ e f. f ≡ of_target e };

    fn from(error: Error) -> CopyFault {
        match error {
            Error::SqliteFailure(ErrorCode::OutOfMemory) => CopyFault::NoMemory,
            other => CopyFault::Target(other),
        }
    }
}

impl From<AllocError> for CopyFault {
    ghost use Rattle.std.specs.Prelude.{◌≡◌};
    ghost use Rattle.record_copy.specs.declared.fault.CopyFault.TheVariants.{NoMemory};

    ghost from_gives = { λ _ f. f ≡ NoMemory };

    fn from(_: AllocError) -> CopyFault {
        CopyFault::NoMemory
    }
}
