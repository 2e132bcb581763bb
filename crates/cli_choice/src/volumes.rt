//! What is typed of an archive of volumes.

ghost use Rattle.std.specs.Prelude.{◌≡◌, IfOk, IfSome};
ghost use Rattle.choice_words.specs.Typed.{numbers_for};
ghost use Rattle.cli_choice.specs.TypedVolumes.{IsChoiceIn};

use choice_words::{Choice, TypedChoice};
use std::alloc::{AllocError, Global};

/// The choice for a volume alone: by it the volume answers those of its records that are chosen of all volumes. None where none of
/// its records is, so that it need not be opened.
pub fn choice_in_volume<'a>(
    alloc: Global,
    typed: &TypedChoice<'a>,
    volume: u32,
) -> Result<Option<Choice<'a>>, AllocError>
    ensures chosen { IfOk result (IsChoiceIn typed.now volume) }
    ensures numbers { IfOk result
        (λ o. IfSome o (λ d. d.numbers.items ≡ numbers_for volume typed.now.of_volumes.items)) }
{
    typed.in_volume(alloc, volume)
}
