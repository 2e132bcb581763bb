//! Why there is no image of a script.

ghost use Rattle.std.specs.Prelude.{◌≡◌};
ghost use Rattle.filing_gen.specs.Correct.{gen_number};
ghost use Rattle.filing_gen.specs.declared.fault.GenFault.TheVariants.{NoMemory};

use std::alloc::{AllocError, AllocFailed};
use thiserror::Error;

/// Why there is no image of a script.
#[derive(Clone, Copy, Debug, Error)]
pub enum GenFault {
    /// 5: the script is too heavy, also where the scripts that it includes share their code. `compile` says the limits.
    #[error("the script is too heavy")]
    TooLarge,
    /// 99: an allocation was refused.
    #[error("out of memory")]
    NoMemory,
}

impl GenFault {
    /// The number by which the fault is reported: 5 or 99.
    pub fn number(self) -> u8
        ensures { result ≡ gen_number self }
    {
        match self {
            GenFault::TooLarge => 5,
            GenFault::NoMemory => 99,
        }
    }
}

impl From<AllocError> for GenFault {
    ghost from_gives = { λ _ fault. fault ≡ NoMemory };

    fn from(_error: AllocError) -> GenFault {
        GenFault::NoMemory
    }
}

impl<T: Drop> From<AllocFailed<T>> for GenFault {
    ghost from_gives = { λ _ fault. fault ≡ NoMemory };

    fn from(_error: AllocFailed<T>) -> GenFault {
        GenFault::NoMemory
    }
}
