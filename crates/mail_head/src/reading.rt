//! The fields of a header, one after another, and the whole header of a message.

ghost use Rattle.std.specs.Prelude.{◌≡◌, [], length, IfOk, MatchOption};
ghost use Rattle.mail_head.specs.Fields.{fields_of};
ghost use Rattle.mail_head.specs.FirstField.{IsFirstField};

use crate::fields::{Field, field_at};
use crate::lines::{header_ends, logical_len};
use std::alloc::{AllocError, Global};
use std::marker::Model;

/// A field, and where it stands in a text.
#[derive(Drop)]
pub struct FoundField<'a> {
    pub field: Field<'a>,
    /// The text from the field's first octet on.
    pub from: &'a [u8],
    /// The text after the field, its line end included.
    pub after: &'a [u8],
}

/// The first field of a text's header. The text begins at a line's start, and logical lines that are no fields are
/// passed over. None where the header has no field.
pub fn first_field(text: &[u8]) -> Option<FoundField<'_>>
    ensures { MatchOption result (fields_of text.now ≡ []) (IsFirstField text.now) }
{
    let mut rest = text;
    while !header_ends(rest) {
        let (line, after) = rest.split_at(logical_len(rest));
        if let Some(field) = field_at(line) {
            return Some(FoundField {
                field,
                from: rest,
                after,
            });
        }
        rest = after;
    }
    None
}

/// The fields of a message in order, and how many octets the message has.
#[derive(Drop)]
pub struct Head<'a> {
    fields: Vec<Field<'a>>,
    size: u64,
}

impl<'a> Model for Head<'a> {
    ghost use Rattle.std.specs.Prelude.{ℕ, List};

    ghost Value = { List (List ℕ × List ℕ) × ℕ };

    ghost view = { λ h. (h.fields.items, h.size) };
}

impl<'a> Head<'a> {
    /// The fields, in the order of the message.
    pub fn fields(&self) -> &[Field<'a>]
        ensures { result.now ≡ self.now.0 }
    {
        self.fields.as_slice()
    }

    /// How many octets the message has, its body included.
    pub fn size(&self) -> u64
        ensures { result ≡ self.now.1 }
    {
        self.size
    }
}

/// The header of a message (RFC 5322, section 2.2), read leniently: its fields in order, as slices of `msg`, and the
/// number of the message's octets, its body included. The one error is out of memory.
pub fn read_head(alloc: Global, msg: &[u8]) -> Result<Head<'_>, AllocError>
    ensures { IfOk result (λ h. h ≡ (fields_of msg.now, length msg.now)) }
{
    let mut fields = Vec::new(alloc);
    let mut rest = msg;
    while let Some(found) = first_field(rest) {
        let FoundField { field, after, .. } = found;
        fields.push(field)?;
        rest = after;
    }
    Ok(Head {
        fields,
        size: msg.len() as u64,
    })
}
