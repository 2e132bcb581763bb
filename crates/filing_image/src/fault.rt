//! Why there is no image.

ghost use Rattle.std.specs.Prelude.{◌≡◌};
ghost use Rattle.filing_image.specs.Numbers.{form_number};
ghost use Rattle.filing_image.specs.declared.fault.FormFault.TheVariants.{NoMemory};

use std::alloc::{AllocError, AllocFailed};
use thiserror::Error;

/// Why octets or parts make no image.
#[derive(Clone, Copy, Debug, Error)]
pub enum FormFault {
    /// 60: the octets spell no image, or the format has no spelling of the parts.
    #[error("this is not the form of an image")]
    BadForm,
    /// 99: an allocation was refused.
    #[error("out of memory")]
    NoMemory,
}

impl FormFault {
    /// The number by which the fault is reported: 60 or 99.
    pub fn number(self) -> u8
        ensures { result ≡ form_number self }
    {
        match self {
            FormFault::BadForm => 60,
            FormFault::NoMemory => 99,
        }
    }
}

impl From<AllocError> for FormFault {
    ghost from_gives = { λ _ fault. fault ≡ NoMemory };

    fn from(_error: AllocError) -> FormFault {
        FormFault::NoMemory
    }
}

impl<T: Drop> From<AllocFailed<T>> for FormFault {
    ghost from_gives = { λ _ fault. fault ≡ NoMemory };

    fn from(_error: AllocFailed<T>) -> FormFault {
        FormFault::NoMemory
    }
}
