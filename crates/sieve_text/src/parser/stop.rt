//! Why reading stops before a tree is complete.

ghost use Rattle.std.specs.Prelude.{◌≡◌, ℕ, length, drop};
ghost use Rattle.sieve_text.specs.Gaps.{gap_len};
ghost use Rattle.sieve_text.specs.declared.parser.stop.Misfit.TheVariants.{Syntax};
ghost use Rattle.sieve_text.specs.declared.parser.stop.Stop.TheVariants.{Refused};

use crate::scanner::gap_length;
use std::alloc::{AllocError, AllocFailed};

/// Why a token does not fit.
#[derive(Clone, Copy)]
pub enum Misfit {
    /// The next token cannot come here, or a token is missing.
    Syntax,
    /// The next token would begin the 33rd nested test or block.
    Nesting,
}

/// No memory, or a misfit and how many octets remain from the first octet of its token on.
#[derive(Clone, Copy)]
pub enum Stop {
    NoMemory,
    Refused(Misfit, usize),
}

impl From<AllocError> for Stop {
    ghost use Rattle.std.specs.Prelude.{◌≡◌};
    ghost use Rattle.sieve_text.specs.declared.parser.stop.Stop.TheVariants.{NoMemory};

    ghost from_gives = { λ _ e. e ≡ NoMemory };

    fn from(_error: AllocError) -> Stop {
        Stop::NoMemory
    }
}

impl<T: Drop> From<AllocFailed<T>> for Stop {
    ghost use Rattle.std.specs.Prelude.{◌≡◌};
    ghost use Rattle.sieve_text.specs.declared.parser.stop.Stop.TheVariants.{NoMemory};

    ghost from_gives = { λ _ e. e ≡ NoMemory };

    fn from(_error: AllocFailed<T>) -> Stop {
        Stop::NoMemory
    }
}

/// How many octets remain from the first token of a text on, or from where no token begins.
pub fn left_from(text: &[u8]) -> usize
    ensures { result ≡ length (drop (gap_len 0 text.now) text.now) }
{
    let (_, rest) = text.split_at(gap_length(text));
    rest.len()
}

/// The refusal of the first token of a text, or of its end, which does not fit the grammar.
pub fn syntax(text: &[u8]) -> Stop
    ensures { (left : ℕ) × (result ≡ Refused Syntax left) }
{
    Stop::Refused(Misfit::Syntax, left_from(text))
}
