//! Why a history is not followed.

use std::alloc::{AllocError, AllocFailed};

/// Why a deed of a history is not done again.
#[derive(Clone, Copy)]
pub enum Misdeed {
    /// The archive refuses it at that point, or gives its record another number.
    Refused,
    /// Its plan is none.
    NoPlan,
    /// Its record was captured after 2199-12-31, so it has no due day.
    LateDay,
    /// 99: no memory.
    NoMemory,
}

impl From<AllocError> for Misdeed {
    ghost use Rattle.std.specs.Prelude.{◌≡◌};
    ghost use Rattle.record_judge.specs.declared.faults.Misdeed.TheVariants.{NoMemory};

    ghost from_gives = { λ _ f. f ≡ NoMemory };

    fn from(_: AllocError) -> Misdeed {
        Misdeed::NoMemory
    }
}

impl<T: Drop> From<AllocFailed<T>> for Misdeed {
    ghost use Rattle.std.specs.Prelude.{◌≡◌};
    ghost use Rattle.record_judge.specs.declared.faults.Misdeed.TheVariants.{NoMemory};

    ghost from_gives = { λ _ f. f ≡ NoMemory };

    fn from(_: AllocFailed<T>) -> Misdeed {
        Misdeed::NoMemory
    }
}
