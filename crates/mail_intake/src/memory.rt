//! What was told of messages that stay.

ghost use Rattle.std.specs.Prelude.{◌≡◌, ◌<◌, ◌^◌, ◌++◌, [], ℕ, IfOk, IfSome, OnOk, Some, map, option_map, decimal};
ghost use Rattle.std.specs.List.{flat_map, list_any};
ghost use Rattle.mail_intake.specs.Telling.{CanBeKept, IsReading, Keeps, Memory as Kept, entries_of, entry, field, fields_of, is_of, is_to_be_told, memory_view, spelling, told_view};

use std::alloc::{AllocError, Global};

/// That it was told of a message that it stays, and the words for it.
#[derive(Drop)]
pub struct Told {
    pub name: Vec<u8>,
    pub words: Vec<u8>,
}

/// What was told on a day.
#[derive(Drop)]
pub struct Memory {
    /// The day, counted from 1970-01-01.
    pub day: u64,
    pub told: Vec<Told>,
}

impl Told {
    /// Whether it was told of this message, in these words.
    fn is_of(&self, name: &[u8], words: &[u8]) -> bool
        ensures { result ≡ is_of name.now words.now (told_view self.now) }
    {
        self.name.as_slice() == name && self.words.as_slice() == words
    }
}

/// Whether it was told of a message, in these words.
fn has_told(told: &[Told], name: &[u8], words: &[u8]) -> bool
    ensures { result ≡ list_any (λ t. is_of name.now words.now (told_view t)) told.now }
{
    told.iter().any(|told| told.is_of(name, words))
}

/// Adds a field.
fn push_field(octets: &mut Vec<u8>, value: &[u8]) -> Result<(), AllocError>
    ensures { OnOk result (octets.new.items ≡ octets.old.items ++ field value.now) }
{
    octets.extend_from_slice(value)?;
    octets.push(0)?;
    Ok(())
}

/// Adds the fields of what was told.
fn push_entry(octets: &mut Vec<u8>, told: &Told) -> Result<(), AllocError>
    ensures { OnOk result
        (octets.new.items ≡ octets.old.items ++ entry (told_view told.now)) }
{
    push_field(octets, told.name.as_slice())?;
    push_field(octets, told.words.as_slice())
}

/// Adds the fields of all that was told.
fn push_entries(octets: &mut Vec<u8>, told: &[Told]) -> Result<(), AllocError>
    ensures { OnOk result
        (octets.new.items ≡ octets.old.items ++ flat_map entry (map told_view told.now)) }
{
    for told in told {
        push_entry(octets, told)?;
    }
    Ok(())
}

/// What stands between the NULs of octets.
fn fields_in(alloc: Global, octets: &[u8]) -> Result<Vec<&[u8]>, AllocError>
    ensures { IfOk result (λ v. map (λ f. f.now) v.items ≡ fields_of octets.now) }
{
    octets.split(|octet| *octet == 0).collect(alloc)
}

/// The day that a field spells; none where it spells none.
fn day_in(digits: &[u8]) -> Option<u64>
    ensures { (n : ℕ) → n < 2 ^ 64 → digits.now ≡ decimal n → result ≡ Some n }
{
    str::from_utf8(digits).ok()?.parse().ok()
}

/// The entries that fields spell, two each.
fn entries_in(alloc: Global, fields: &[&[u8]]) -> Result<Vec<Told>, AllocError>
    ensures { IfOk result (λ v.
        map told_view v.items ≡ entries_of (map (λ f. f.now) fields.now)) }
{
    let mut told = Vec::new(alloc);
    let mut rest = fields;
    while let [name, words, others @ ..] = rest {
        told.push(Told {
            name: Vec::from_slice(alloc, name)?,
            words: Vec::from_slice(alloc, words)?,
        })?;
        rest = others;
    }
    Ok(told)
}

/// The one memory that octets may keep.
fn parsed(alloc: Global, octets: &[u8]) -> Result<Option<Memory>, AllocError>
    ensures only { IfOk result (λ found.
        (m : Kept) → Keeps octets.now m → option_map memory_view found ≡ Some m) }
    ensures fit { IfOk result (λ found. IfSome found (λ m. CanBeKept (memory_view m))) }
{
    let fields = fields_in(alloc, octets)?;
    let [digits, entries @ ..] = fields.as_slice() else {
        return Ok(None);
    };
    let Some(day) = day_in(digits) else {
        return Ok(None);
    };
    let told = entries_in(alloc, entries)?;
    Ok(Some(Memory { day, told }))
}

impl Memory {
    /// That nothing was told.
    pub fn none(alloc: Global) -> Memory
        ensures { (memory_view result).told ≡ [] }
    {
        Memory {
            day: 0,
            told: Vec::new(alloc),
        }
    }

    /// The octets in which it is kept: the day in decimal digits, and each name with its words, each of these ended by a NUL.
    pub fn spelling(&self, alloc: Global) -> Result<Vec<u8>, AllocError>
        ensures { IfOk result (λ v. v.items ≡ spelling (memory_view self.now)) }
    {
        let mut octets = Vec::new(alloc);
        let day = self.day.to_string(alloc)?;
        push_field(&mut octets, day.as_bytes())?;
        push_entries(&mut octets, self.told.as_slice())?;
        Ok(octets)
    }

    /// The memory that is kept in these octets; none where they keep none. They are not trusted: what is read is what they
    /// spell, each octet of them.
    pub fn read(alloc: Global, octets: &[u8]) -> Result<Option<Memory>, AllocError>
        ensures { IfOk result (λ found.
            IsReading octets.now (option_map memory_view found)) }
    {
        let Some(memory) = parsed(alloc, octets)? else {
            return Ok(None);
        };
        let again = memory.spelling(alloc)?;
        if again.as_slice() == octets {
            Ok(Some(memory))
        } else {
            Ok(None)
        }
    }

    /// Whether it is to be told on a day that a message stays: unless that was told on this day, in the same words.
    pub fn is_to_be_told(&self, name: &[u8], words: &[u8], day: u64) -> bool
        ensures { result ≡ is_to_be_told name.now words.now day (memory_view self.now) }
    {
        !(self.day == day && has_told(self.told.as_slice(), name, words))
    }
}
