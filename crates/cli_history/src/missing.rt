//! Numbers that are asked for, and of which nothing is told.

ghost use Rattle.std.specs.Prelude.{◌≡◌, [], IfOk, OnOk, filter, not, true};
ghost use Rattle.record_history.specs.Views.{deed_view};
ghost use Rattle.cli_history.specs.Chosen.{meets};
ghost use Rattle.cli_history.specs.Missing.{unmet_after};

use crate::chosen::{any_touches, records_of, touches};
use choice_words::TypedNumbers;
use cli_console::{Failure, put_typed, tell};
use record_history::Deed;
use std::alloc::{AllocError, Global};
use tool_texts::{Shown, put};

/// The numbers of records that are typed, and of which no event was met, in their order.
#[derive(Drop)]
pub struct Missing {
    alloc: Global,
    rest: Vec<TypedNumbers>,
}

/// What is said of numbers of which nothing is told; those of a volume stand after its number.
fn missed(
    alloc: Global,
    volume: Option<u32>,
    typed: TypedNumbers,
    words: &'static str,
) -> Result<Shown, AllocError> {
    let mut text = Shown::new(alloc);
    put_typed(&mut text, volume, typed)?;
    put!(text; ": " words(words))?;
    Ok(text)
}

/// Those of some numbers that have none from a first to a last.
fn without(
    alloc: Global,
    typed: &[TypedNumbers],
    first: u32,
    last: u32,
) -> Result<Vec<TypedNumbers>, AllocError>
    ensures { IfOk result (λ v. v.items ≡ filter (λ w. not (meets first last w)) typed.now) }
{
    let mut rest = Vec::new(alloc);
    for numbers in typed {
        if !touches(numbers, first, last) {
            rest.push(*numbers)?;
        }
    }
    Ok(rest)
}

impl Missing {
    /// All of the numbers that are typed.
    pub fn of(alloc: Global, typed: &[TypedNumbers]) -> Result<Missing, AllocError>
        ensures { IfOk result (λ m. m.rest.items ≡ typed.now) }
    {
        Ok(Missing {
            alloc,
            rest: Vec::from_slice(alloc, typed)?,
        })
    }

    /// Notes that an event of a deed was met.
    pub fn meet(&mut self, deed: &Deed<'_>) -> Result<(), AllocError>
        ensures { OnOk result
            (self.new.rest.items ≡ unmet_after self.old.rest.items (deed_view deed.now)) }
    {
        let Some((first, last)) = records_of(deed) else {
            return Ok(());
        };
        if any_touches(self.rest.as_slice(), first, last) {
            self.rest = without(self.alloc, self.rest.as_slice(), first, last)?;
        }
        Ok(())
    }

    /// Says in these words of each number, which may be one of a volume, that it was not met. Answers whether each was.
    pub fn tell(
        &self,
        rt: &HostRuntime,
        volume: Option<u32>,
        words: &'static str,
    ) -> Result<bool, Failure>
        ensures { IfOk result (λ is_all_met. is_all_met ≡ true → self.now.rest.items ≡ []) }
    {
        for typed in &self.rest {
            tell(rt, &missed(rt.alloc(), volume, *typed, words)?);
        }
        Ok(self.rest.is_empty())
    }
}
