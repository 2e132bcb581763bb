//! Encoded words that rules see as they are written, since rules decode fewer than people read.

ghost use Rattle.std.specs.Prelude.{◌≡◌, ◌≤◌, [], length, map, fold, flat_map, IfOk, OnOk, MatchOption, None, Some};
ghost use Rattle.std.specs.List.{list_any};
ghost use Rattle.mail_head.specs.Fields.{fields_of};
ghost use Rattle.mail_words.specs.Value.{value_of_body};
ghost use Rattle.mail_display.specs.Undecoded.{charset_at, charsets_in, words_in, is_same, with_word, undecoded_in};

use crate::groups::is_called;
use crate::words::front_word;
use mail_head::{Field, first_field};
use mail_words::value_of;
use std::alloc::{AllocError, Global};
use std::marker::Model;

/// How many words are named at most.
const MOST: usize = 20;

/// An encoded word that rules see as it is written.
#[derive(Drop)]
pub struct UndecodedWord {
    field: Vec<u8>,
    charset: Vec<u8>,
}

impl Model for UndecodedWord {
    ghost use Rattle.std.specs.Prelude.{ℕ, List};

    ghost Value = { List ℕ × List ℕ };

    ghost view = { λ w. (w.field.items, w.charset.items) };
}

impl UndecodedWord {
    /// The name of its field, as it is written.
    pub fn field(&self) -> &[u8]
        ensures { result.now ≡ self.now.0 }
    {
        self.field.as_slice()
    }

    /// The charset that it names, as it is written: 1 octet or more, all visible ASCII.
    pub fn charset(&self) -> &[u8]
        ensures { result.now ≡ self.now.1 }
    {
        self.charset.as_slice()
    }

    /// Whether it has this charset, and its field this name, in any case of their letters.
    fn is(&self, field: &[u8], charset: &[u8]) -> bool
        ensures { result ≡ is_same (field.now, charset.now) self.now }
    {
        is_called(field, self.field()) && is_called(charset, self.charset())
    }
}

/// The charset of the word at the front of a text, if one stands there and names one.
#[tactic(auto, unfolding(crate::specs::Undecoded::charset_at))]
fn front_charset(text: &[u8]) -> Option<&[u8]>
    ensures { MatchOption result (charset_at text.now ≡ None)
        (λ charset. charset_at text.now ≡ Some charset.now) }
{
    match front_word(text) {
        Some(word) if !word.charset.is_empty() => Some(word.charset),
        _ => None,
    }
}

/// Whether a word of that field and charset is among some.
fn is_among(words: &[UndecodedWord], field: &[u8], charset: &[u8]) -> bool
    ensures { result ≡ list_any (is_same (field.now, charset.now)) words.now }
{
    words.iter().any(|word| word.is(field, charset))
}

/// Adds a word of a field, unless one like it is there, or there are as many as are named.
fn add_word(words: &mut Vec<UndecodedWord>, field: &[u8], charset: &[u8]) -> Result<(), AllocError>
    ensures { OnOk result (words.new.items ≡ with_word words.old.items (field.now, charset.now)) }
{
    if is_among(words.as_slice(), field, charset) || words.len() >= MOST {
        return Ok(());
    }
    let alloc = *words.allocator();
    words.push(UndecodedWord {
        field: Vec::from_slice(alloc, field)?,
        charset: Vec::from_slice(alloc, charset)?,
    })?;
    Ok(())
}

/// Adds the words that stand in the value of a field.
fn add_words(words: &mut Vec<UndecodedWord>, field: &[u8], value: &[u8]) -> Result<(), AllocError>
    ensures { OnOk result (words.new.items ≡ fold with_word words.old.items
        (map (λ charset. (field.now, charset)) (charsets_in value.now))) }
{
    let mut rest = value;
    while let Some((_, following)) = rest.split_first() {
        if let Some(charset) = front_charset(rest) {
            add_word(words, field, charset)?;
        }
        rest = following;
    }
    Ok(())
}

/// The encoded words that rules see as they are written in the fields of a message, in their order: each name of a field
/// with each charset once, and 20 at most. Rules do not decode a word of a charset that they do not know, nor one that is
/// not written as RFC 2047, section 5, has it, such as one in quotation marks. People may read both: see
/// [`display`](crate::display).
///
/// A word may stand anywhere in a field's value, and has the form `=?charset?encoding?text?=` with any octet for the
/// encoding. The one error is out of memory.
#[tactic(auto, unfolding(crate::specs::Undecoded::undecoded_in))]
pub fn undecoded_words(alloc: Global, message: &[u8]) -> Result<Vec<UndecodedWord>, AllocError>
    ensures { IfOk result (λ words. words.items ≡ undecoded_in message.now) }
{
    let mut words = Vec::new(alloc);
    let mut rest = message;
    while let Some(found) = first_field(rest) {
        let value = value_of(alloc, found.field.raw())?;
        add_words(&mut words, found.field.name(), value.as_slice())?;
        rest = found.after;
    }
    Ok(words)
}
