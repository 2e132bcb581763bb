//! Why a text is no question.

use sieve_check::CheckFault;
use sieve_text::{TextFault, TextRefusal};
use std::alloc::AllocError;

/// Why a text is no question.
#[derive(Clone, Copy)]
pub enum QuestionFault {
    /// 99: no memory.
    NoMemory,
    /// The text is not exactly one test: the refusal, 10 to 16, 20 or 21, and its offset in octets.
    Text(TextRefusal, usize),
    /// The test is not well made: the refusal, 30 to 41.
    Test(CheckFault),
}

impl From<TextFault> for QuestionFault {
    ghost use Rattle.std.specs.Prelude.{◌≡◌};
    ghost use Rattle.record_question.specs.Faults.{of_text};

    ghost from_gives = { λ e f. f ≡ of_text e };

    fn from(fault: TextFault) -> QuestionFault {
        match fault {
            TextFault::NoMemory => QuestionFault::NoMemory,
            TextFault::Refused(refusal, at) => QuestionFault::Text(refusal, at),
        }
    }
}

impl From<CheckFault> for QuestionFault {
    ghost use Rattle.std.specs.Prelude.{◌≡◌};
    ghost use Rattle.record_question.specs.declared.fault.QuestionFault.TheVariants.{Test};

    ghost from_gives = { λ e f. f ≡ Test e };

    fn from(fault: CheckFault) -> QuestionFault {
        QuestionFault::Test(fault)
    }
}

impl From<AllocError> for QuestionFault {
    ghost use Rattle.std.specs.Prelude.{◌≡◌};
    ghost use Rattle.record_question.specs.declared.fault.QuestionFault.TheVariants.{NoMemory};

    ghost from_gives = { λ _ f. f ≡ NoMemory };

    fn from(_: AllocError) -> QuestionFault {
        QuestionFault::NoMemory
    }
}
