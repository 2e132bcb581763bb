//! Why an inquiry has no answer.

ghost use Rattle.std.specs.Prelude.{◌≡◌};

use filing_gen::GenFault;
use sieve_library::LibraryFault;
use std::alloc::{AllocError, AllocFailed, Global};
use thiserror::Error;

/// Why an inquiry has no answer.
#[derive(Debug, Drop, Error)]
pub enum InquiryFault {
    /// The script of the file at this path has a new name, and its location has thirty-two scripts (96).
    #[error("{0}: its folder has more than 32 scripts")]
    Full(String),
    /// The message has more octets than a session takes (95).
    #[error("the message is longer than 8388608 octets")]
    TooLong,
    #[error("out of memory")]
    NoMemory,
}

impl From<AllocError> for InquiryFault {
    ghost use Rattle.tool_inquiry.specs.declared.faults.InquiryFault.TheVariants.{NoMemory};

    ghost from_gives = { λ _ fault. fault ≡ NoMemory };

    fn from(_error: AllocError) -> InquiryFault {
        InquiryFault::NoMemory
    }
}

impl<T: Drop> From<AllocFailed<T>> for InquiryFault {
    ghost use Rattle.tool_inquiry.specs.declared.faults.InquiryFault.TheVariants.{NoMemory};

    ghost from_gives = { λ _ fault. fault ≡ NoMemory };

    fn from(_error: AllocFailed<T>) -> InquiryFault {
        InquiryFault::NoMemory
    }
}
