//! What is typed of a choice before it is known whether the archive has volumes.

ghost use Rattle.std.specs.Prelude.{◌≡◌, is_some, IfOk, IfSome};
ghost use Rattle.std.specs.List.{find, list_any};
ghost use Rattle.choice_words.specs.Typed.{IsChoiceFor, first_above, first_alone, first_number_above, first_of_volumes, from_number, is_above, is_asked_of, is_named_or_none, is_of, is_reached, is_untyped, numbers_for, number_after_one, numbers_of_first};

use crate::choice::Choice;
use crate::numbers::TypedNumbers;
use crate::volumes::{VolumeNumber, VolumeNumbers};
use std::alloc::{AllocError, Global};

/// Which records a command is about, as it is typed. Numbers of an archive in one file have no volume, and those of an archive of
/// volumes have one; which of the two is right, the archive says.
#[derive(Drop)]
pub struct TypedChoice<'a> {
    /// The conditions, and the numbers without a volume.
    pub alone: Choice<'a>,
    /// The numbers with a volume.
    pub of_volumes: Vec<VolumeNumbers>,
    /// The first record that is looked at, where it is typed with a volume. Records of later volumes are looked at too.
    pub from: Option<VolumeNumber>,
}

/// The first record that is looked at, as a word that stands for its number.
fn numbers_of_first(first: VolumeNumber) -> VolumeNumbers
    ensures { result ≡ numbers_of_first first }
{
    VolumeNumbers {
        volume: first.volume,
        numbers: TypedNumbers::One(first.number),
    }
}

/// The number from which records are looked at, where it is not the first of all.
fn number_after_one(number: u32) -> Option<TypedNumbers>
    ensures { result ≡ number_after_one number }
{
    if number <= 1 {
        None
    } else {
        Some(TypedNumbers::One(number))
    }
}

/// The first record that is looked at, as a word, where its volume has a number above this one.
fn first_number_above(last: u32, first: Option<VolumeNumber>) -> Option<VolumeNumbers>
    ensures { result ≡ first_number_above last first }
{
    let first = first?;
    if first.volume > last {
        Some(numbers_of_first(first))
    } else {
        None
    }
}

/// The first of some numbers whose volume has a number above this one.
pub fn above_in(words: &[VolumeNumbers], last: u32) -> Option<VolumeNumbers>
    ensures { result ≡ find (is_above last) words.now }
{
    for word in words {
        if word.volume > last {
            return Some(*word);
        }
    }
    None
}

/// The numbers of a volume among some, without that of the volume.
pub fn numbers_for(
    alloc: Global,
    volume: u32,
    words: &[VolumeNumbers],
) -> Result<Vec<TypedNumbers>, AllocError>
    ensures { IfOk result (λ v. v.items ≡ numbers_for volume words.now) }
{
    let mut numbers = Vec::new(alloc);
    for word in words {
        if word.volume == volume {
            numbers.push(word.numbers)?;
        }
    }
    Ok(numbers)
}

/// Whether one of some words names a volume.
fn is_named(words: &[VolumeNumbers], volume: u32) -> bool
    ensures { result ≡ list_any (is_of volume) words.now }
{
    words.iter().any(|word| word.volume == volume)
}

/// Whether one of some words names a volume, or there is none.
pub fn is_named_or_none(words: &[VolumeNumbers], volume: u32) -> bool
    ensures { result ≡ is_named_or_none volume words.now }
{
    words.is_empty() || is_named(words, volume)
}

/// Whether a volume is the one from which records are looked at, or a later one.
fn is_reached(volume: u32, first: Option<VolumeNumber>) -> bool
    ensures { result ≡ is_reached volume first }
{
    match first {
        Some(first) => first.volume <= volume,
        None => true,
    }
}

/// From which number on the records of a volume are looked at.
fn from_number(volume: u32, first: Option<VolumeNumber>) -> u32
    ensures { result ≡ from_number volume first }
{
    let Some(first) = first else {
        return 0;
    };
    if first.volume == volume {
        first.number
    } else {
        0
    }
}

impl<'a> TypedChoice<'a> {
    /// Whether nothing is asked for, neither a number nor a condition: then each record is meant.
    pub fn is_empty(&self) -> bool
        ensures { result ≡ is_untyped self.now }
    {
        self.of_volumes.is_empty() && self.from.is_none() && self.alone.is_empty()
    }

    /// The first number that is typed with a volume, if one is. That from which records are looked at comes last.
    pub fn first_of_volumes(&self) -> Option<VolumeNumbers>
        ensures { result ≡ first_of_volumes self.now }
    {
        match self.of_volumes.as_slice() {
            [first, ..] => Some(*first),
            [] => match self.from {
                Some(first) => Some(numbers_of_first(first)),
                None => None,
            },
        }
    }

    /// The first number that is typed without a volume, if one is. That from which records are looked at comes last.
    pub fn first_alone(&self) -> Option<TypedNumbers>
        ensures { result ≡ first_alone self.now }
    {
        match self.alone.numbers.as_slice() {
            [first, ..] => Some(*first),
            [] => number_after_one(self.alone.from),
        }
    }

    /// The first number that is typed of a volume whose number is above this one, if one is.
    pub fn first_above(&self, last: u32) -> Option<VolumeNumbers>
        ensures { result ≡ first_above last self.now }
    {
        above_in(self.of_volumes.as_slice(), last).or(first_number_above(last, self.from))
    }

    /// Whether records of a volume may be asked for.
    fn is_asked_of(&self, volume: u32) -> bool
        ensures { result ≡ is_asked_of volume self.now }
    {
        is_named_or_none(self.of_volumes.as_slice(), volume) && is_reached(volume, self.from)
    }

    /// What is typed of a volume, for that volume alone. None where none of its records is asked for: where numbers of other
    /// volumes alone are typed, or it is before the one from which records are looked at. Numbers without a volume count for nothing
    /// here.
    pub fn in_volume(&self, alloc: Global, volume: u32) -> Result<Option<Choice<'a>>, AllocError>
        ensures asked { IfOk result (λ o. is_some o ≡ is_asked_of volume self.now) }
        ensures choice { IfOk result (λ o. IfSome o (IsChoiceFor volume self.now)) }
    {
        if !self.is_asked_of(volume) {
            return Ok(None);
        }
        let numbers = numbers_for(alloc, volume, self.of_volumes.as_slice())?;
        Ok(Some(Choice {
            numbers,
            from: from_number(volume, self.from),
            ..self.alone
        }))
    }
}
