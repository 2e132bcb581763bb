//! What a run has done so far, and how commands end.

ghost use Rattle.std.specs.Prelude.{◌≡◌};
ghost use Rattle.sieve_evaluator.specs.Runs.{fault_of};

use class_paths::Paths;
use sieve_meaning::{RunFault, ScriptName};
use std::collections::VecDeque;

/// What a run has done so far.
#[derive(Drop)]
pub struct Filing<'a> {
    pub filed: Paths,
    pub kept: bool,
    pub cancelled: bool,
    /// The scripts that were entered, the last one first; the main one too where it has a name.
    pub entered: VecDeque<ScriptName<'a>>,
}

/// How commands end.
#[derive(Clone, Copy, PartialEq, Eq)]
pub enum Ending {
    GoesOn,
    /// `return` (RFC 6609, section 3.3).
    Returns,
    /// `stop` (RFC 5228, section 3.3).
    Stops,
    /// The run ends with a fault.
    Faults(RunFault),
}

impl Ending {
    /// The fault, if there is one.
    pub fn fault(self) -> Option<RunFault>
        ensures { result ≡ fault_of self }
    {
        match self {
            Ending::Faults(fault) => Some(fault),
            Ending::GoesOn | Ending::Returns | Ending::Stops => None,
        }
    }
}
