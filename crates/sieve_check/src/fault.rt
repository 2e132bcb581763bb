//! The refusals of the checker.

ghost use Rattle.std.specs.Prelude.{◌≡◌};
ghost use Rattle.sieve_check.specs.Faults.{number_of};

use thiserror::Error;

/// Why a script is not well made: the rule that its first faulty command breaks, the one of the least number if it
/// breaks several. Tests belong to their command.
#[derive(Clone, Copy, Debug, Error)]
pub enum CheckFault {
    /// 30: a `require` names an unknown capability (RFC 5228, section 3.2).
    #[error("unknown capability")]
    UnknownCapability,
    /// 31: a `require` comes after a command other than `require` (RFC 5228, section 3.2).
    #[error("a require after another command")]
    RequireTooLate,
    /// 32: the command is unknown (RFC 5228, section 2.10.5).
    #[error("unknown command")]
    UnknownCommand,
    /// 33: the test is unknown (RFC 5228, section 2.10.5).
    #[error("not among the known tests")]
    UnknownTest,
    /// 34: no `require` before names a capability that the command or its tag needs (RFC 5228, section 2.10.5).
    #[error("a capability is needed and not required")]
    CapabilityNotRequired,
    /// 35: the command or test has no such tag, or the tag comes after a positional argument (RFC 5228, section 2.6.2).
    #[error("a tag is not allowed here")]
    TagNotAllowed,
    /// 36: a tag occurs twice, or together with another of its kind (RFC 5228, section 2.6.2).
    #[error("a tag stands twice, or beside another of its kind")]
    TagTwice,
    /// 37: the positional arguments are not those that the command or test takes, a tag lacks its string, or a required
    /// tag is missing (RFC 5228, section 2.6).
    #[error("wrong arguments")]
    WrongArguments,
    /// 38: the comparator is unknown (RFC 5228, section 2.7.3).
    #[error("unknown comparator")]
    UnknownComparator,
    /// 39: an `elsif` or `else` does not directly follow an `if` or `elsif` (RFC 5228, section 3.1).
    #[error("elsif or else without if")]
    ElseWithoutIf,
    /// 40: a block is missing, or is not allowed (RFC 5228, section 2.8).
    #[error("a block is missing or not allowed")]
    Block,
    /// 41: a test or a list of tests is missing, or is not allowed (RFC 5228, section 2.5).
    #[error("tests are missing or not allowed")]
    Tests,
}

impl CheckFault {
    /// The refusal's number, 30 to 41.
    pub fn number(self) -> u8
        ensures { result ≡ number_of self }
    {
        match self {
            CheckFault::UnknownCapability => 30,
            CheckFault::RequireTooLate => 31,
            CheckFault::UnknownCommand => 32,
            CheckFault::UnknownTest => 33,
            CheckFault::CapabilityNotRequired => 34,
            CheckFault::TagNotAllowed => 35,
            CheckFault::TagTwice => 36,
            CheckFault::WrongArguments => 37,
            CheckFault::UnknownComparator => 38,
            CheckFault::ElseWithoutIf => 39,
            CheckFault::Block => 40,
            CheckFault::Tests => 41,
        }
    }
}
