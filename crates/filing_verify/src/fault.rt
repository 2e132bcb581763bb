//! Why an image may not run.

ghost use Rattle.std.specs.Prelude.{◌≡◌};
ghost use Rattle.filing_verify.specs.Well.{verify_number};
ghost use Rattle.filing_verify.specs.declared.fault.VerifyFault.TheVariants.{NoMemory};

use std::alloc::{AllocError, AllocFailed};
use thiserror::Error;

/// Why an image may not run. Where it breaks several rules, the smallest number is reported.
#[derive(Clone, Copy, Debug, PartialEq, Eq, Error)]
pub enum VerifyFault {
    /// 62: there are more than 64 slots, or an operation, reached or not, names a text, number, slot, place or procedure
    /// that does not exist, or has an operand outside its values. In version 2 also: there is no procedure or more than
    /// 256, or one begins elsewhere than it may, or a jump, reached or not, leaves its procedure. Procedure 0 begins at
    /// place 0, and each other one after the one before it and before the end.
    #[error("an operand is out of range")]
    Operand,
    /// 63: a reached jump does not go to a greater place, or a reached call not to a procedure with a greater number.
    #[error("a jump does not go forward")]
    Backward,
    /// 64: no shapes of the stack fit the reached places. Either an operand is missing or of another kind, or two paths
    /// leave different shapes at one place, or the stack is deeper than 32, or not empty at a call or a return.
    #[error("the stack has no one shape at each place")]
    Stack,
    /// 65: there is no instruction, or a reached one goes on past the end of the code or of its procedure.
    #[error("the code runs off its end")]
    RunsOff,
    /// 66: the budget is 0, or in version 1 above 65,535 or below the number of places on some path, or in version 2
    /// above 1,000,000 or below the cost of place 0. A call costs one step, and what its procedure and the next place
    /// cost; any other place one step, and what its costliest successor costs.
    #[error("the budget does not suffice")]
    Budget,
    /// 99: an allocation was refused.
    #[error("out of memory")]
    NoMemory,
}

impl VerifyFault {
    /// The number by which the fault is reported: 62 to 66 or 99.
    pub fn number(self) -> u8
        ensures { result ≡ verify_number self }
    {
        match self {
            VerifyFault::Operand => 62,
            VerifyFault::Backward => 63,
            VerifyFault::Stack => 64,
            VerifyFault::RunsOff => 65,
            VerifyFault::Budget => 66,
            VerifyFault::NoMemory => 99,
        }
    }
}

impl From<AllocError> for VerifyFault {
    ghost from_gives = { λ _ fault. fault ≡ NoMemory };

    fn from(_error: AllocError) -> VerifyFault {
        VerifyFault::NoMemory
    }
}

impl<T: Drop> From<AllocFailed<T>> for VerifyFault {
    ghost from_gives = { λ _ fault. fault ≡ NoMemory };

    fn from(_error: AllocFailed<T>) -> VerifyFault {
        VerifyFault::NoMemory
    }
}
