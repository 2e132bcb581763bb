//! The fields of a header with their values.

ghost use Rattle.std.specs.Prelude.{◌≡◌, ◌+◌, ◌*◌, ◌<◌, ◌≤◌, ◌^◌, ◌++◌, length, map, slice_range, IfOk};
ghost use Rattle.mail_head.specs.Fields.{fields_of};
ghost use Rattle.mail_words.specs.Value.{value_of_body};
ghost use Rattle.mail_case.specs.Message.{field_in};
ghost use Rattle.mail_case.specs.Fields.{nth_field, start_from};

use mail_head::{Field, MAX_OCTETS, first_field};
use mail_words::append_value;
use std::alloc::{AllocError, Global};
use std::marker::Model;

/// Where a field's name and its value end in the octets of all names and values.
#[derive(Clone, Copy)]
pub struct FieldEnds {
    pub name: u32,
    pub value: u32,
}

/// The fields of a header with their values, in order. Names and values lie one after another in one vector, and eight
/// more octets are kept for each field.
#[derive(Drop)]
pub struct FieldValues {
    octets: Vec<u8>,
    ends: Vec<FieldEnds>,
}

impl Model for FieldValues {
    ghost use Rattle.std.specs.Prelude.{List, length, IsTrue};
    ghost use Rattle.sieve_meaning.specs.Case.{Field as FieldOf};
    ghost use Rattle.mail_case.specs.Fields.{fields_from, ascend};

    ghost Value = { List FieldOf };

    ghost view = { λ v. fields_from v.octets.items 0 v.ends.items };

    ghost invariant = { λ v. IsTrue (ascend 0 v.ends.items (length v.octets.items)) };
}

impl FieldValues {
    /// The fields of the header of a text of at most 8,388,608 octets, in order, each with the value of its body; each
    /// value is decoded once, here. Two allocations are made, one for all fields and one for all octets of their names
    /// and bodies. The second grows only where a value is longer than its body. The only error is a refused allocation.
    pub fn read(alloc: Global, text: &[u8]) -> Result<FieldValues, AllocError>
        requires { length text.now ≤ MAX_OCTETS }
        ensures { IfOk result (λ v. v ≡ map field_in (fields_of text.now)) }
    {
        let room = room_for(text);
        let mut octets = Vec::with_capacity(alloc, room.octets)?;
        let mut ends = Vec::with_capacity(alloc, room.fields)?;
        let mut rest = text;
        while let Some(found) = first_field(rest) {
            ends.push(append_field(&mut octets, &found.field)?)?;
            rest = found.after;
        }
        Ok(FieldValues { octets, ends })
    }

    /// The number of fields.
    pub fn count(&self) -> usize
        ensures { result ≡ length self.now }
    {
        self.ends.len()
    }

    /// The name of the field at a place, counted from 0 and below `count`.
    pub fn name(&self, place: usize) -> &[u8]
        requires { place < length self.now }
        ensures { result.now ≡ (nth_field self.now place).name }
    {
        let start = start_of(self.ends.as_slice(), place);
        part(self.octets.as_slice(), start, self.ends[place].name)
    }

    /// The value of the field at a place, counted from 0 and below `count`.
    pub fn value(&self, place: usize) -> &[u8]
        requires { place < length self.now }
        ensures { result.now ≡ (nth_field self.now place).value }
    {
        let ends = self.ends[place];
        part(self.octets.as_slice(), ends.name, ends.value)
    }
}

/// Where the field at a place begins, which is where the one before it ends.
fn start_of(ends: &[FieldEnds], place: usize) -> u32
    requires { place < length ends.now }
    ensures { result ≡ start_from 0 ends.now place }
{
    if place == 0 {
        return 0;
    }
    ends[place - 1].value
}

/// The octets from a place on, up to another.
fn part(octets: &[u8], from: u32, to: u32) -> &[u8]
    requires order { from ≤ to }
    requires within { to ≤ length octets.now }
    ensures { result.now ≡ slice_range octets.now from to }
{
    &octets[from as usize..to as usize]
}

/// The number of fields of a header, and of the octets of their names and bodies.
#[derive(Clone, Copy)]
struct Room {
    fields: usize,
    octets: usize,
}

/// The room for the fields of the header of a text.
fn room_for(text: &[u8]) -> Room
    ensures fields { result.fields ≡ length (fields_of text.now) }
    ensures octets { result.octets ≤ length text.now }
{
    let mut room = Room {
        fields: 0,
        octets: 0,
    };
    let mut rest = text;
    while let Some(found) = first_field(rest) {
        room.fields += 1;
        room.octets += found.field.name().len() + found.field.raw().len();
        rest = found.after;
    }
    room
}

/// Appends a field's name and its value, and answers where they end.
fn append_field(octets: &mut Vec<u8>, field: &Field<'_>) -> Result<FieldEnds, AllocError>
    requires { (length octets.old.items + length field.now.0) + 4 * length field.now.1 < 2 ^ 32 }
    ensures octets { IfOk result (λ _. octets.new.items ≡ octets.old.items ++
        (field.now.0 ++ value_of_body field.now.1)) }
    ensures name { IfOk result (λ ends. ends.name ≡ length octets.old.items + length field.now.0) }
    ensures value { IfOk result (λ ends. ends.value ≡ length octets.new.items) }
    ensures short { IfOk result (λ _. length octets.new.items ≤
        (length octets.old.items + length field.now.0) + 4 * length field.now.1) }
{
    octets.extend_from_slice(field.name())?;
    let name = octets.len() as u32;
    append_value(octets, field.raw())?;
    Ok(FieldEnds {
        name,
        value: octets.len() as u32,
    })
}
