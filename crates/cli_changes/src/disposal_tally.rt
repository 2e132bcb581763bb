//! What disposals come to in one store after another, of which it is told once.

ghost use Rattle.std.specs.Prelude.{◌≡◌, ◌++◌, false, OnOk};
ghost use Rattle.cli_changes.specs.DisposalTallies.{EndsAs, none_words, tally_after};

use class_plan::Date;
use cli_console::{Failure, tell, tell_words_in};
use std::alloc::AllocError;
use tool_texts::Shown;

/// What disposals have come to in the stores so far.
#[derive(Clone, Copy)]
pub struct DisposalTally {
    /// Whether there was a record that may be destroyed.
    pub(crate) is_any: bool,
    /// Whether a message is gone with one.
    pub(crate) is_any_gone: bool,
}

/// Adds that no record is due by a day and may be destroyed, of all or of those that are typed.
#[tactic(auto, unfolding(crate::specs::DisposalTallies::none_words))]
fn put_none(text: &mut Shown, is_typed: bool, day: Date) -> Result<(), AllocError>
    ensures { OnOk result (text.new ≡ text.old ++ none_words is_typed day) }
{
    text.words(if is_typed {
        "none of these records"
    } else {
        "no record"
    })?;
    text.words(" is due by ")?;
    text.value(&day)?;
    text.words(" and may be destroyed")
}

impl DisposalTally {
    /// Of no store yet.
    pub fn none() -> DisposalTally
        ensures { result ≡ record { is_any = false; is_any_gone = false } }
    {
        DisposalTally {
            is_any: false,
            is_any_gone: false,
        }
    }

    /// Adds what a disposal came to in the next store, if it ended well there. It ends in the same way.
    pub fn add(&mut self, disposed: Result<DisposalTally, Failure>) -> Result<(), Failure>
        ensures added { self.new ≡ tally_after self.old disposed }
        ensures ends { EndsAs disposed result }
    {
        match disposed {
            Ok(next) => {
                self.is_any = self.is_any || next.is_any;
                self.is_any_gone = self.is_any_gone || next.is_any_gone;
                Ok(())
            }
            Err(failure) => Err(failure),
        }
    }

    /// Tells, where a message is gone with a record, what is left of it: of a volume alone, where its number is given.
    pub fn tell_gone(&self, rt: &HostRuntime, volume: Option<u32>) {
        if self.is_any_gone {
            tell_words_in(
                rt,
                volume,
                "the messages are gone from the archive, but their octets may still lie in unused parts of its file; copy makes a store without them",
            );
        }
    }

    /// Tells, where there was no record, that none is due by the day and may be destroyed, of all or of those that are typed.
    pub fn tell_none(&self, rt: &HostRuntime, is_typed: bool, day: Date) -> Result<(), Failure> {
        if self.is_any {
            return Ok(());
        }
        let mut text = Shown::new(rt.alloc());
        put_none(&mut text, is_typed, day)?;
        tell(rt, &text);
        Ok(())
    }
}
