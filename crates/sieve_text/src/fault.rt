//! Why a script is refused.

ghost use Rattle.std.specs.Prelude.{◌≡◌};
ghost use Rattle.sieve_text.specs.Grammar.{text_number};
ghost use Rattle.sieve_text.specs.Tokens.{scan_number};

use std::alloc::{AllocError, AllocFailed};

/// Why a text is no sequence of tokens (RFC 5228, section 8.1).
#[derive(Clone, Copy)]
pub enum ScanRefusal {
    /// 10: the script is not UTF-8 (RFC 5228, section 2.1).
    NotUtf8,
    /// 11: no token begins at this octet, or it is an octet 0 or a CR without LF.
    NoToken,
    /// 12: a quoted or multi-line string is still open at the end of the script (RFC 5228, section 2.4.2).
    StringNotClosed,
    /// 13: a bracketed comment is still open at the end of the script (RFC 5228, section 2.3).
    CommentNotClosed,
    /// 14: a number with its factor is above 2^63 - 1 (RFC 5228, section 2.4.1).
    NumberTooLarge,
    /// 15: the script has more than 262,144 octets.
    ScriptTooLong,
    /// 16: the value of a string has more than 65,535 octets.
    StringTooLong,
}

impl ScanRefusal {
    /// The number of the refusal: 10 to 16.
    pub fn number(self) -> u8
        ensures { result ≡ scan_number self }
    {
        match self {
            ScanRefusal::NotUtf8 => 10,
            ScanRefusal::NoToken => 11,
            ScanRefusal::StringNotClosed => 12,
            ScanRefusal::CommentNotClosed => 13,
            ScanRefusal::NumberTooLarge => 14,
            ScanRefusal::ScriptTooLong => 15,
            ScanRefusal::StringTooLong => 16,
        }
    }
}

/// A refusal and its place, an offset in octets.
#[derive(Clone, Copy)]
pub struct FaultyPlace {
    pub refusal: ScanRefusal,
    pub at: usize,
}

impl FaultyPlace {
    pub fn new(refusal: ScanRefusal, at: usize) -> FaultyPlace
        ensures { (result.refusal ≡ refusal) × (result.at ≡ at) }
    {
        FaultyPlace { refusal, at }
    }
}

/// Why `scan` gives no tokens.
#[derive(Clone, Copy)]
pub enum ScanFault {
    /// 99: no memory; an allocation failed.
    NoMemory,
    /// A refusal and its place, an offset in octets. `NoToken` is at its octet, and `NotUtf8` and `ScriptTooLong` are
    /// at 0. The others are at the first octet of the token or comment.
    Refused(ScanRefusal, usize),
}

impl From<FaultyPlace> for ScanFault {
    ghost use Rattle.std.specs.Prelude.{◌≡◌};
    ghost use Rattle.sieve_text.specs.declared.fault.ScanFault.TheVariants.{Refused};

    ghost from_gives = { λ p f. f ≡ Refused p.refusal p.at };

    fn from(place: FaultyPlace) -> ScanFault {
        ScanFault::Refused(place.refusal, place.at)
    }
}

impl From<AllocError> for ScanFault {
    ghost use Rattle.std.specs.Prelude.{◌≡◌};
    ghost use Rattle.sieve_text.specs.declared.fault.ScanFault.TheVariants.{NoMemory};

    ghost from_gives = { λ _ e. e ≡ NoMemory };

    fn from(_error: AllocError) -> ScanFault {
        ScanFault::NoMemory
    }
}

impl<T: Drop> From<AllocFailed<T>> for ScanFault {
    ghost use Rattle.std.specs.Prelude.{◌≡◌};
    ghost use Rattle.sieve_text.specs.declared.fault.ScanFault.TheVariants.{NoMemory};

    ghost from_gives = { λ _ e. e ≡ NoMemory };

    fn from(_error: AllocFailed<T>) -> ScanFault {
        ScanFault::NoMemory
    }
}

/// Why a text is not a script.
#[derive(Clone, Copy)]
pub enum TextRefusal {
    /// 10 to 16: the text is no sequence of tokens.
    Scan(ScanRefusal),
    /// 20: the tokens do not follow the grammar of RFC 5228, section 8.2.
    Syntax,
    /// 21: more than 32 tests or more than 32 blocks are nested.
    Nesting,
}

impl TextRefusal {
    /// The number of the refusal: 10 to 16, 20 or 21.
    pub fn number(self) -> u8
        ensures { result ≡ text_number self }
    {
        match self {
            TextRefusal::Scan(refusal) => refusal.number(),
            TextRefusal::Syntax => 20,
            TextRefusal::Nesting => 21,
        }
    }
}

/// Why `parse` gives no script.
#[derive(Clone, Copy)]
pub enum TextFault {
    /// 99: no memory; an allocation failed.
    NoMemory,
    /// A refusal and its place, an offset in octets. `Scan` is at the scanner's place. `Syntax` is at the first token
    /// after which nothing could make the text a script, or at the text's length if the text ends too early. `Nesting`
    /// is at the identifier of the 33rd test, or at the opening brace of the 33rd block.
    Refused(TextRefusal, usize),
}

impl From<ScanFault> for TextFault {
    ghost use Rattle.std.specs.Prelude.{◌≡◌};
    ghost use Rattle.sieve_text.specs.Grammar.{text_fault_of};

    ghost from_gives = { λ e f. f ≡ text_fault_of e };

    fn from(fault: ScanFault) -> TextFault {
        match fault {
            ScanFault::NoMemory => TextFault::NoMemory,
            ScanFault::Refused(refusal, at) => TextFault::Refused(TextRefusal::Scan(refusal), at),
        }
    }
}
