//! Why a plan, or a change of one, is refused.
ghost use Rattle.std.specs.Prelude.{◌≡◌};
ghost use Rattle.class_plan.specs.Faults.{number_of};
ghost use Rattle.class_plan.specs.declared.faults.PlanFault.TheVariants.{NoMemory};

use std::alloc::{AllocError, AllocFailed};
use thiserror::Error;

/// Why a plan is refused. Where several reasons hold, the one with the smallest number is
/// answered.
#[derive(Clone, Copy, Debug, Error)]
pub enum PlanFault {
    /// 50: the text is not UTF-8, or not TOML.
    #[error("the plan is not TOML")]
    NotToml,
    /// 51: a key is missing, unknown or of another kind, or `unfiled` is closed.
    #[error("the plan has another shape")]
    BadShape,
    /// 52: a path is not 1 to 8 segments of 1 to 40 small letters, digits and `-`.
    #[error("a path is not well made")]
    BadPath,
    /// 53: a path without its last segment is no class.
    #[error("a path has no parent")]
    ParentMissing,
    /// 54: a path appears twice.
    #[error("a path is there twice")]
    PathTwice,
    /// 55: a schedule is not well made, or its count is out of range.
    #[error("a schedule is not well made")]
    BadSchedule,
    /// 56: there are more than 4,096 classes, `unfiled` among them.
    #[error("there are too many classes")]
    TooManyClasses,
    /// 57: a path of the present plan is missing from the new one.
    #[error("a path was dropped")]
    PathDropped,
    /// 99: no memory.
    #[error("out of memory")]
    NoMemory,
}

impl PlanFault {
    /// The fault's number, 50 to 57 or 99.
    pub fn number(&self) -> u8
        ensures { result ≡ number_of self.now }
    {
        match self {
            PlanFault::NotToml => 50,
            PlanFault::BadShape => 51,
            PlanFault::BadPath => 52,
            PlanFault::ParentMissing => 53,
            PlanFault::PathTwice => 54,
            PlanFault::BadSchedule => 55,
            PlanFault::TooManyClasses => 56,
            PlanFault::PathDropped => 57,
            PlanFault::NoMemory => 99,
        }
    }
}

impl From<AllocError> for PlanFault {
    ghost from_gives = { λ _ f. f ≡ NoMemory };

    fn from(_: AllocError) -> PlanFault {
        PlanFault::NoMemory
    }
}

impl<T: Drop> From<AllocFailed<T>> for PlanFault {
    ghost from_gives = { λ _ f. f ≡ NoMemory };

    fn from(_: AllocFailed<T>) -> PlanFault {
        PlanFault::NoMemory
    }
}
