//! The faults with which a run can end.

ghost use Rattle.std.specs.Prelude.{◌≡◌};
ghost use Rattle.sieve_meaning.specs.RunFaults.{number_of, fault_of};

/// The fault with which a run ends. It then captures in the default class alone.
#[derive(Clone, Copy, PartialEq, Eq)]
pub enum RunFault {
    /// 1: a `fileinto` of a class that is not open (RFC 5228, section 4.1).
    ClassNotOpen,
    /// 2: an `include` of a script that is missing, without `:optional` (RFC 6609, sections 3.1 and 3.2).
    ScriptMissing,
    /// 3: an `include` of a script that is active, which would so include itself (RFC 6609, section 3.1).
    RecursiveInclude,
    /// 4: an `include` where eight scripts are active, the main one among them (RFC 6609, section 3.1).
    NestingTooDeep,
    /// 5: a script that is too heavy to be compiled, with all that it includes (RFC 5228, section 2.10.7).
    TooHeavy,
}

impl RunFault {
    /// The number that replies show, 1 to 5. From 2 on it is also the operand of the instruction `Fault`.
    pub fn number(self) -> u8
        ensures { result ≡ number_of self }
    {
        match self {
            RunFault::ClassNotOpen => 1,
            RunFault::ScriptMissing => 2,
            RunFault::RecursiveInclude => 3,
            RunFault::NestingTooDeep => 4,
            RunFault::TooHeavy => 5,
        }
    }

    /// The fault with this number; none where the number is not 1 to 5.
    pub fn of_number(number: u8) -> Option<RunFault>
        ensures { result ≡ fault_of number }
    {
        match number {
            1 => Some(RunFault::ClassNotOpen),
            2 => Some(RunFault::ScriptMissing),
            3 => Some(RunFault::RecursiveInclude),
            4 => Some(RunFault::NestingTooDeep),
            5 => Some(RunFault::TooHeavy),
            _ => None,
        }
    }
}
