//! Why a library refuses a script.

ghost use Rattle.std.specs.Prelude.{◌≡◌};
ghost use Rattle.sieve_library.specs.Libraries.{library_number};

use std::alloc::{AllocError, AllocFailed};
use thiserror::Error;

/// Why a library refuses a script.
#[derive(Clone, Copy, Debug, Error)]
pub enum LibraryFault {
    /// 96: the name is new, and its location has thirty-two scripts.
    #[error("the library is full")]
    Full,
    /// 99: out of memory.
    #[error("out of memory")]
    NoMemory,
}

impl LibraryFault {
    /// The number of the fault: 96 or 99.
    pub fn number(self) -> u8
        ensures { result ≡ library_number self }
    {
        match self {
            LibraryFault::Full => 96,
            LibraryFault::NoMemory => 99,
        }
    }
}

impl From<AllocError> for LibraryFault {
    ghost use Rattle.sieve_library.specs.declared.fault.LibraryFault.TheVariants.{NoMemory};

    ghost from_gives = { λ _ fault. fault ≡ NoMemory };

    fn from(_error: AllocError) -> LibraryFault {
        LibraryFault::NoMemory
    }
}

impl<T: Drop> From<AllocFailed<T>> for LibraryFault {
    ghost use Rattle.sieve_library.specs.declared.fault.LibraryFault.TheVariants.{NoMemory};

    ghost from_gives = { λ _ fault. fault ≡ NoMemory };

    fn from(_error: AllocFailed<T>) -> LibraryFault {
        LibraryFault::NoMemory
    }
}
