//! One field: its name, and its body as it stands in the message (RFC 5322, section 2.2).

ghost use Rattle.std.specs.Prelude.{◌≡◌, ◌+◌, ◌<◌, ◌≤◌, length, IsTrue, IfSome, ◌==◌};
ghost use Rattle.std.specs.List.{prefix_len};
ghost use Rattle.mail_head.specs.Lines.{is_blank};
ghost use Rattle.mail_head.specs.Fields.{is_name_octet, begins_with, field_of};

use crate::lines::{is_blank_octet, line_text};
use std::marker::Model;

/// A field of a header: its name and its body, as slices of the message.
#[derive(Drop)]
pub struct Field<'a> {
    name: &'a [u8],
    raw: &'a [u8],
}

impl<'a> Model for Field<'a> {
    ghost use Rattle.std.specs.Prelude.{ℕ, List};

    ghost Value = { List ℕ × List ℕ };

    ghost view = { λ f. (f.name.now, f.raw.now) };
}

impl<'a> Field<'a> {
    /// The field's name: one octet or more, each 33 to 126 and no colon (RFC 5322, section 2.2).
    pub fn name(&self) -> &'a [u8]
        ensures { result.now ≡ self.now.0 }
    {
        self.name
    }

    /// The field's body as it stands after the colon: with its blanks and inner line ends, but without the end of its
    /// last line.
    pub fn raw(&self) -> &'a [u8]
        ensures { result.now ≡ self.now.1 }
    {
        self.raw
    }
}

/// Whether an octet may stand in the name of a field (RFC 5322, section 2.2).
fn is_name(octet: u8) -> bool
    ensures { result ≡ is_name_octet octet }
{
    octet >= 33 && octet <= 126 && octet != b':'
}

/// How many octets of a name a text begins with.
fn name_len(text: &[u8]) -> usize
    ensures value { result ≡ prefix_len is_name_octet text.now }
    ensures within { result ≤ length text.now }
{
    text.iter().take_while(|octet| is_name(**octet)).count()
}

/// How many blanks a text begins with.
fn blank_len(text: &[u8]) -> usize
    ensures value { result ≡ prefix_len is_blank text.now }
    ensures within { result ≤ length text.now }
{
    text.iter()
        .take_while(|octet| is_blank_octet(**octet))
        .count()
}

fn begins_with_colon(text: &[u8]) -> bool
    ensures value { result ≡ begins_with 58 text.now }
    ensures some { IsTrue result → 0 < length text.now }
{
    match text {
        [first, ..] => *first == b':',
        [] => false,
    }
}

/// The field in a logical line: a name of one octet or more, blanks, a colon and the body (RFC 5322, section 2.2). None
/// where the line is no field.
#[tactic(auto, unfolding(crate::specs::Fields::field_of))]
pub fn field_at(line: &[u8]) -> Option<Field<'_>>
    ensures value { result ≡ field_of line.now }
    ensures within { IfSome result (λ f. length f.0 + length f.1 < length line.now) }
{
    let (name, after) = line.split_at(name_len(line));
    let (_, rest) = after.split_at(blank_len(after));
    if name.is_empty() || !begins_with_colon(rest) {
        return None;
    }
    let (_, body) = rest.split_at(1);
    Some(Field {
        name,
        raw: line_text(body),
    })
}
