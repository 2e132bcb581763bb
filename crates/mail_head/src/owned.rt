//! A header that owns its octets.

ghost use Rattle.std.specs.Prelude.{◌≡◌, ◌<◌, ◌≤◌, ◌^◌, [], length, map};
ghost use Rattle.std.specs.List.{All, HoldsAt};
ghost use Rattle.std.specs.Vec.{vec_capacity};
ghost use Rattle.mail_head.specs.Fields.{fields_of};
ghost use Rattle.mail_head.specs.Starts.{field_from, IsFieldStart};

use crate::fields::Field;
use crate::reading::first_field;
use std::marker::Model;

/// The header of a message that came in pieces: its fields in order, and how many octets the message had. It owns the
/// header's octets and nothing of the body.
#[derive(Drop)]
pub struct PieceHead {
    octets: Vec<u8>,
    /// The offset of each field in `octets`.
    starts: Vec<u32>,
    size: u64,
}

impl Model for PieceHead {
    ghost use Rattle.std.specs.Prelude.{map};
    ghost use Rattle.std.specs.List.{All};
    ghost use Rattle.mail_head.specs.Pieces.{OwnedHeader};
    ghost use Rattle.mail_head.specs.Starts.{field_from, IsFieldStart};

    ghost Value = { OwnedHeader };

    ghost view = { λ h. record {
      fields = map (field_from h.octets.items) h.starts.items;
      size = h.size;
      octets = h.octets.items;
    } };

    ghost invariant = { λ h. All (IsFieldStart h.octets.items) h.starts.items };
}

impl PieceHead {
    /// The header in `octets`. The empty `starts` has room for the start of each field.
    pub(crate) fn from_octets(octets: Vec<u8>, starts: Vec<u32>, size: u64) -> PieceHead
        requires empty { starts.items ≡ [] }
        requires room { length (fields_of octets.items) ≤ vec_capacity starts }
        requires short { length octets.items < 2 ^ 32 }
        ensures fields { result.fields ≡ fields_of octets.items }
        ensures size { result.size ≡ size }
        ensures octets { result.octets ≡ octets.items }
    {
        let starts = field_starts(starts, octets.as_slice());
        PieceHead {
            octets,
            starts,
            size,
        }
    }

    fn field(&self, index: usize) -> Field<'_>
        requires { index < length self.now.fields }
        ensures { HoldsAt (λ f. result ≡ f) self.now.fields index }
    {
        let (_, text) = self.octets.as_slice().split_at(self.starts[index] as usize);
        match first_field(text) {
            Some(found) => found.field,
            None => unreachable!(),
        }
    }

    /// How many fields the header has.
    pub fn field_count(&self) -> usize
        ensures { result ≡ length self.now.fields }
    {
        self.starts.len()
    }

    /// The name of the field `index`, counted from 0 and below `field_count`. It takes time linear in the field.
    pub fn name(&self, index: usize) -> &[u8]
        requires { index < length self.now.fields }
        ensures { HoldsAt (λ f. result.now ≡ f.0) self.now.fields index }
    {
        self.field(index).name()
    }

    /// The body of the field `index`, counted from 0 and below `field_count`, as it stands in the message. It takes
    /// time linear in the field.
    pub fn raw(&self, index: usize) -> &[u8]
        requires { index < length self.now.fields }
        ensures { HoldsAt (λ f. result.now ≡ f.1) self.now.fields index }
    {
        self.field(index).raw()
    }

    /// How many octets the message had, its body included.
    pub fn size(&self) -> u64
        ensures { result ≡ self.now.size }
    {
        self.size
    }
}

/// The offsets of a header's fields, in order. They fill `starts`, which has room for them.
fn field_starts(mut starts: Vec<u32>, octets: &[u8]) -> Vec<u32>
    requires empty { starts.items ≡ [] }
    requires room { length (fields_of octets.now) ≤ vec_capacity starts }
    requires short { length octets.now < 2 ^ 32 }
    ensures value { map (field_from octets.now) result.items ≡ fields_of octets.now }
    ensures starts { All (IsFieldStart octets.now) result.items }
{
    let mut rest = octets;
    while let Some(found) = first_field(rest) {
        let start = octets.len() - found.from.len();
        let Ok(()) = starts.push(start as u32) else {
            unreachable!()
        };
        rest = found.after;
    }
    starts
}
