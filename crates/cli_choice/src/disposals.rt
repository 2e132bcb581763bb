//! Which records a disposal is about.

ghost use Rattle.std.specs.Prelude.{◌≡◌, map, IfOk};
ghost use Rattle.record_archive.specs.Lines.{line_view};
ghost use Rattle.cli_choice.specs.Disposals.{in_range, is_ranged, numbers_meant, IsMeant};

use crate::typed::singles_of;
use choice_words::TypedNumbers;
use record_archive::Line;
use std::alloc::{AllocError, Global};

/// Which records a disposal is about.
#[derive(Drop)]
pub enum Meant {
    /// All that may be destroyed: no number is typed.
    All,
    /// None: only ranges are typed, and nothing in them may be destroyed.
    Nothing,
    /// Those with these numbers.
    Numbers(Vec<u32>),
}

/// Whether a number is in a range that is typed.
fn is_in_range(typed: TypedNumbers, number: u32) -> bool
    ensures { result ≡ in_range number typed }
{
    match typed {
        TypedNumbers::One(_) => false,
        TypedNumbers::Range { first, last } => first <= number && number <= last,
    }
}

/// Whether a number is in one of the ranges that are typed.
fn is_ranged(typed: &[TypedNumbers], number: u32) -> bool
    ensures { result ≡ is_ranged typed.now number }
{
    typed.iter().any(|numbers| is_in_range(*numbers, number))
}

/// Those that are typed by themselves, and those of the lines that are in a range.
fn numbers_of(
    alloc: Global,
    typed: &[TypedNumbers],
    lines: Vec<Line>,
) -> Result<Vec<u32>, AllocError>
    ensures { IfOk result (λ v. v.items ≡ numbers_meant typed.now (map line_view lines.items)) }
{
    let mut numbers = singles_of(alloc, typed)?;
    for line in lines {
        if is_ranged(typed, line.number) {
            numbers.push(line.number)?;
        }
    }
    Ok(numbers)
}

/// Which of the records that may be destroyed, as these lines list them, a disposal is about: those in the ranges that are
/// typed. Those that are typed by themselves are meant whether or not they may be destroyed.
pub fn meant_of(
    alloc: Global,
    typed: &[TypedNumbers],
    lines: Vec<Line>,
) -> Result<Meant, AllocError>
    ensures { IfOk result (λ m. IsMeant typed.now (map line_view lines.items) m) }
{
    if typed.is_empty() {
        return Ok(Meant::All);
    }
    let numbers = numbers_of(alloc, typed, lines)?;
    if numbers.is_empty() {
        return Ok(Meant::Nothing);
    }
    Ok(Meant::Numbers(numbers))
}
