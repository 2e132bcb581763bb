//! Numbers of records as few words.

ghost use Rattle.std.specs.Prelude.{◌≡◌, ◌||◌, ◌==◌, ℕ, IfSome, OnOk};
ghost use Rattle.choice_words.specs.Ranges.{is_number_of, is_meant_by};

use crate::numbers::TypedNumbers;
use std::alloc::AllocError;

/// The word of a range and of the number right after it.
fn range_to(first: u32, last: u32, number: u32) -> Option<TypedNumbers>
    ensures { IfSome result (λ w. (n : ℕ) → is_number_of n w
        ≡ (is_number_of n (TypedNumbers.Range first last) || (n == number))) }
{
    if first <= last && last < number && number - last == 1 {
        Some(TypedNumbers::Range {
            first,
            last: number,
        })
    } else {
        None
    }
}

/// One word for the numbers of a word and for one more, where that comes right after them.
fn joined(word: TypedNumbers, number: u32) -> Option<TypedNumbers>
    ensures { IfSome result (λ w. (n : ℕ) → is_number_of n w
        ≡ (is_number_of n word || (n == number))) }
{
    match word {
        TypedNumbers::One(one) => range_to(one, one, number),
        TypedNumbers::Range { first, last } => range_to(first, last, number),
    }
}

/// Adds a number to words that stand for numbers of records. Where it comes right after those of the last word, both become
/// one word, as `5-9`; so numbers that rise become as few words as can be.
pub fn add_number(words: &mut Vec<TypedNumbers>, number: u32) -> Result<(), AllocError>
    ensures { OnOk result ((n : ℕ) → is_meant_by words.new.items n
        ≡ (is_meant_by words.old.items n || (n == number))) }
{
    let Some(last) = words.pop() else {
        words.push(TypedNumbers::One(number))?;
        return Ok(());
    };
    match joined(last, number) {
        Some(word) => words.push(word)?,
        None => {
            words.push(last)?;
            words.push(TypedNumbers::One(number))?;
        }
    }
    Ok(())
}
