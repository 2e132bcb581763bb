//! Why a command of an archive is refused.

ghost use Rattle.std.specs.Prelude.{◌≡◌};
ghost use Rattle.record_archive.specs.Faults.{number_of};

use class_plan::PlanFault;
use std::alloc::{AllocError, AllocFailed};

/// Why an archive refuses a command.
#[derive(Clone, Copy)]
pub enum ArchiveRefusal {
    /// 52, 53, 54, 56 or 57: a refusal of the plan.
    Plan(PlanFault),
    /// 59: the path is no class of the plan.
    NoClass,
    /// 80: there is no record with the number.
    NoRecord,
    /// 81: a hold keeps the record.
    Held,
    /// 82: the record is due later.
    NotDue,
    /// 83: the action of the record's schedule is not to destroy.
    NotForDestruction,
    /// 84: the record is destroyed.
    Destroyed,
    /// 85: there is no hold of the name on the record.
    NoHold,
    /// 86: there is already a hold of the name on the record.
    HoldThere,
    /// 87: the numbers of records are used up.
    Full,
    /// 88: what is kept is no archive.
    NoArchive,
}

/// Why a call on an archive that is kept somewhere is refused. The cause is that of the keeper, as the error of a
/// database.
#[derive(Clone, Copy)]
pub enum ArchiveFault<E> {
    /// 52 to 57, 59, and 80 to 88: the archive refuses the command.
    Refused(ArchiveRefusal),
    /// 89: the database refused, for this cause.
    Database(E),
    /// 99: no memory.
    NoMemory,
}

impl ArchiveRefusal {
    /// The number of the refusal: 52 to 57, 59, or 80 to 88.
    pub fn number(&self) -> u8
        ensures { result ≡ number_of self.now }
    {
        match self {
            ArchiveRefusal::Plan(fault) => fault.number(),
            ArchiveRefusal::NoClass => 59,
            ArchiveRefusal::NoRecord => 80,
            ArchiveRefusal::Held => 81,
            ArchiveRefusal::NotDue => 82,
            ArchiveRefusal::NotForDestruction => 83,
            ArchiveRefusal::Destroyed => 84,
            ArchiveRefusal::NoHold => 85,
            ArchiveRefusal::HoldThere => 86,
            ArchiveRefusal::Full => 87,
            ArchiveRefusal::NoArchive => 88,
        }
    }
}

impl<E> From<AllocError> for ArchiveFault<E> {
    ghost use Rattle.record_archive.specs.declared.fault.ArchiveFault.TheVariants.{NoMemory};

    ghost from_gives = { λ _ f. f ≡ NoMemory };

    fn from(_: AllocError) -> ArchiveFault<E> {
        ArchiveFault::NoMemory
    }
}

impl<T: Drop, E> From<AllocFailed<T>> for ArchiveFault<E> {
    ghost use Rattle.record_archive.specs.declared.fault.ArchiveFault.TheVariants.{NoMemory};

    ghost from_gives = { λ _ f. f ≡ NoMemory };

    fn from(_: AllocFailed<T>) -> ArchiveFault<E> {
        ArchiveFault::NoMemory
    }
}
