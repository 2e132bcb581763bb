//! The numbers of records that a command line has, with the number of their volume or without.

ghost use Rattle.std.specs.Prelude.{◌≡◌, [], codes, map, IfOk, MatchOption, None, Some};
ghost use Rattle.clap.specs.Matches.{found_of};
ghost use Rattle.command_lines.specs.Asked.{value_in, values_in};
ghost use Rattle.command_lines.specs.Numbers.{AddsWord, AreOfVolume, AreTyped, IsNumberOf, number_typed};

use super::{TypedNumber, names};
use crate::reading::{NoCommand, required, seen, value_of, values_of};
use choice_words::{
    TypedNumbers, VolumeNumber, VolumeNumbers, is_named_or_none, numbers_for, read_numbers,
    read_volume_number, read_volume_numbers, reversed_range, reversed_volume_range,
};
use clap::ArgMatches;
use session_words::read_number;
use std::alloc::{AllocError, Global};

/// The number of a record that a word is, with that of its volume, if it has one: `17`, of 32 bits, in decimal digits without a
/// leading zero, or `3/17`. None for any other word.
fn volume_and_number(word: &[u8]) -> Option<(Option<u32>, u32)>
    ensures { result ≡ number_typed word.now }
{
    if let Some(VolumeNumber { volume, number }) = read_volume_number(word) {
        return Some((Some(volume), number));
    }
    match read_number(word, u64::from(u32::MAX)) {
        Some(number) => Some((None, number as u32)),
        None => None,
    }
}

/// The number of a record, as it is typed. Any other word is refused for a reason.
fn number_of<'a>(alloc: Global, word: &'a str, reason: &str) -> Result<TypedNumber<'a>, NoCommand>
    ensures { IfOk result (IsNumberOf (Some word.now)) }
{
    match volume_and_number(word.as_bytes()) {
        Some((volume, number)) => Ok(TypedNumber {
            word,
            volume,
            number,
        }),
        None => Err(NoCommand::wrong(alloc, word, reason)),
    }
}

/// The number of a record, which must be given.
pub(super) fn record_asked<'a>(
    alloc: Global,
    asked: &ArgMatches<'a>,
) -> Result<TypedNumber<'a>, NoCommand>
    ensures { IfOk result (IsNumberOf (value_in (found_of asked.now) (codes "number"))) }
{
    number_of(
        alloc,
        required(asked, names::NUMBER)?,
        "not a number of a record, as 3; list prints the numbers",
    )
}

/// The number of the first record that is looked at, where it is given.
pub(super) fn first_asked<'a>(
    alloc: Global,
    asked: &ArgMatches<'a>,
) -> Result<Option<TypedNumber<'a>>, NoCommand>
    ensures { IfOk result (λ first. MatchOption first (value_in (found_of asked.now) (codes "from") ≡ None)
        (IsNumberOf (value_in (found_of asked.now) (codes "from")))) }
{
    let Some(word) = value_of(asked, names::FROM) else {
        return Ok(None);
    };
    let reason =
        "not a number of a record, from which on --from looks; a sender is typed after --sender";
    Ok(Some(number_of(alloc, word, reason)?))
}

/// Why a word is no numbers of records. Of a range that goes backwards it says how it is typed.
fn no_numbers(alloc: Global, word: &str) -> Result<String, AllocError> {
    match reversed_range(word.as_bytes()) {
        Some(TypedNumbers::Range { first, last }) => {
            format!(in alloc; "{word}: a range begins with its smaller number; type {first}-{last}")
        }
        _ => format!(in alloc;
            "{}: neither a number of a record, as 3, nor a range of numbers, as 5-9; of a volume as 3/17 and 3/5-9",
            seen(word)
        ),
    }
}

/// The same of a word that may have the number of a volume before them.
fn no_numbers_of_volumes(alloc: Global, word: &str) -> Result<String, AllocError> {
    let Some(VolumeNumbers { volume, numbers }) = reversed_volume_range(word.as_bytes()) else {
        return no_numbers(alloc, word);
    };
    match numbers {
        TypedNumbers::Range { first, last } => format!(in alloc;
            "{word}: a range begins with its smaller number; type {volume}/{first}-{last}"
        ),
        TypedNumbers::One(_) => no_numbers(alloc, word),
    }
}

/// The numbers of a volume among some, without that of the volume; none of them, which means all, where there are no others. `None`
/// where other volumes alone are named, so that nothing of this one is asked for.
pub(super) fn numbers_in_volume(
    alloc: Global,
    volume: u32,
    words: &[VolumeNumbers],
) -> Result<Option<Vec<TypedNumbers>>, AllocError>
    ensures { IfOk result (AreOfVolume volume words.now) }
{
    if !is_named_or_none(words, volume) {
        return Ok(None);
    }
    Ok(Some(numbers_for(alloc, volume, words)?))
}

/// Numbers of records, as they are typed.
#[derive(Drop)]
pub struct Numbers {
    /// Those without a volume.
    pub alone: Vec<TypedNumbers>,
    /// Those with one.
    pub of_volumes: Vec<VolumeNumbers>,
}

impl Numbers {
    /// No numbers.
    pub fn none(alloc: Global) -> Numbers
        ensures alone { result.alone.items ≡ [] }
        ensures of_volumes { result.of_volumes.items ≡ [] }
    {
        Numbers {
            alone: Vec::new(alloc),
            of_volumes: Vec::new(alloc),
        }
    }

    /// Those of a volume alone. `None` where nothing of it is asked for. Numbers without a volume count for nothing here.
    pub fn in_volume(
        &self,
        alloc: Global,
        volume: u32,
    ) -> Result<Option<Vec<TypedNumbers>>, AllocError>
        ensures { IfOk result (AreOfVolume volume self.now.of_volumes.items) }
    {
        numbers_in_volume(alloc, volume, self.of_volumes.as_slice())
    }

    /// Adds the numbers that a word is. Answers whether it is any.
    pub fn add(&mut self, word: &[u8]) -> Result<bool, AllocError>
        ensures { IfOk result (λ is_any. AddsWord word.now self.old self.new is_any) }
    {
        if let Some(numbers) = read_volume_numbers(word) {
            self.of_volumes.push(numbers)?;
            return Ok(true);
        }
        let Some(numbers) = read_numbers(word) else {
            return Ok(false);
        };
        self.alone.push(numbers)?;
        Ok(true)
    }
}

/// The numbers that words are. A word that is none is refused.
fn numbers_of(alloc: Global, typed: &[&str]) -> Result<Numbers, NoCommand>
    ensures { IfOk result (AreTyped (map (λ w. w.now) typed.now)) }
{
    let mut numbers = Numbers::none(alloc);
    for word in typed {
        if !numbers.add(word.as_bytes())? {
            return Err(NoCommand::Wrong(no_numbers_of_volumes(alloc, *word)?));
        }
    }
    Ok(numbers)
}

/// The numbers of records that are given, and the ranges of them, with a volume or without.
pub(super) fn numbers_asked(alloc: Global, asked: &ArgMatches<'_>) -> Result<Numbers, NoCommand>
    ensures { IfOk result (AreTyped (values_in (found_of asked.now) (codes "chosen"))) }
{
    numbers_of(alloc, values_of(asked, names::NUMBERS).unwrap_or(&[]))
}
