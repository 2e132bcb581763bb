//! What something comes to that is done in one store after another.

ghost use Rattle.std.specs.Prelude.{◌≡◌, false, true, not, is_ok, IfErr};
ghost use Rattle.cli_console.specs.Failures.{GoesOn, lets_go_on as lets_go_on_after, refused_after};
ghost use Rattle.cli_console.specs.declared.failure.Failure.TheVariants.{Reported};
ghost use Rattle.cli_console.specs.declared.failure.Status.TheVariants.{BadData};

use crate::failure::{Failure, Status};

/// Whether the other stores are done after a failure in one: it is bad data that was reported.
fn lets_go_on(failure: &Failure) -> bool
    ensures { result ≡ lets_go_on_after failure.now }
{
    match failure {
        Failure::Reported(status) => matches!(status, Status::BadData),
        Failure::Closed | Failure::NoMemory | Failure::Told(_, _) => false,
    }
}

/// What something has come to in the stores so far.
#[derive(Clone, Copy)]
pub struct Joined {
    /// Whether something was refused in one of them, which was reported.
    is_refused: bool,
}

impl Joined {
    /// Nothing was refused yet.
    pub fn new() -> Joined
        ensures { result.is_refused ≡ false }
    {
        Joined { is_refused: false }
    }

    /// Adds that something was refused, which was reported.
    pub fn refuse(&mut self)
        ensures { self.new.is_refused ≡ true }
    {
        self.is_refused = true;
    }

    /// Adds what it came to in the next store. What is refused as `BadData` and was reported lets the others go on; any other
    /// failure is the end.
    pub fn add(&mut self, done: Result<(), Failure>) -> Result<(), Failure>
        ensures refused { self.new.is_refused ≡ refused_after self.old.is_refused done }
        ensures goes_on { GoesOn done result }
    {
        match done {
            Ok(()) => Ok(()),
            Err(failure) => {
                if !lets_go_on(&failure) {
                    return Err(failure);
                }
                self.is_refused = true;
                Ok(())
            }
        }
    }

    /// What it comes to in all of them: `BadData`, which was reported, where something was refused.
    pub fn end(self) -> Result<(), Failure>
        ensures well { is_ok result ≡ not self.is_refused }
        ensures refused { IfErr result (λ failure. failure ≡ Reported BadData) }
    {
        if self.is_refused {
            Err(Failure::Reported(Status::BadData))
        } else {
            Ok(())
        }
    }
}
