//! The text that people are shown for a field's body.

ghost use Rattle.std.specs.Prelude.{◌≡◌, ◌+◌, ◌<◌, ◌≤◌, length, IfOk, IfSome, string_bytes, if◌then◌else◌};
ghost use Rattle.std.specs.Str.{is_utf8};
ghost use Rattle.std.specs.Str.Lossy.{utf8_lossy};
ghost use Rattle.mail_words.specs.Unfolding.{without_line_ends, without_outer_blanks};
ghost use Rattle.mail_charsets.specs.declared.charset.Charset.TheVariants.{Utf8};
ghost use Rattle.mail_charsets.specs.Decoding.{text_of, unread_of};
ghost use Rattle.mail_display.specs.Decoding.{readable_at};
ghost use Rattle.mail_display.specs.Readable.{IsReadable};
ghost use Rattle.mail_display.specs.Words.{begins_word};
ghost use Rattle.mail_display.specs.Display.{word_after_gap, unread_front, shown_line, is_plain, display_text, display_unread};

use crate::decoding::{ReadableWord, readable_word};
use crate::unfolding::{blank_len, trimmed, unfolded};
use crate::words::begins_as_word;
use mail_charsets::{Charset, decode};
use std::alloc::{AllocError, Global};

/// A field's body as people read it.
#[derive(Drop)]
pub struct DisplayText {
    /// The text, which may have any characters, control characters among them.
    pub text: String,
    /// How much could not be read: words that stay as they were sent, words with octets that have no character in their
    /// charset, and one more where octets outside of such words are no UTF-8. Nought where all was read.
    pub unread: usize,
}

/// A line whose words are decoded, in octets that ought to be UTF-8, and how many of its words could not be read.
#[derive(Drop)]
struct ShownLine {
    octets: Vec<u8>,
    unread: usize,
}

/// The next word that can be read, where it stands at the front of a text or, after another such word, behind blanks.
fn word_after_gap(
    alloc: Global,
    text: &[u8],
    is_after_word: bool,
) -> Result<Option<ReadableWord<'_>>, AllocError>
    ensures value { IfOk result (λ word. IsReadable (word_after_gap is_after_word text.now) word) }
    ensures shorter { IfOk result (λ word. IfSome word (λ w. length w.rest.now < length text.now)) }
{
    if is_after_word {
        let (_, rest) = text.split_at(blank_len(text));
        readable_word(alloc, rest)
    } else {
        readable_word(alloc, text)
    }
}

/// How many words are unread where a word was decoded.
fn unread_octets(is_whole: bool) -> usize
    ensures value { result ≡ (if is_whole then 0 else 1) }
    ensures few { result ≤ 1 }
{
    if is_whole { 0 } else { 1 }
}

/// How many words are unread that begin a text where none was decoded.
fn unread_words(text: &[u8]) -> usize
    ensures value { result ≡ unread_front text.now }
    ensures few { result ≤ 1 }
{
    if begins_as_word(text) { 1 } else { 0 }
}

/// A line with its words decoded, and without the blanks between them.
fn shown_line(alloc: Global, line: &[u8]) -> Result<ShownLine, AllocError>
    ensures octets { IfOk result (λ shown. shown.octets.items ≡ (shown_line line.now).0) }
    ensures unread { IfOk result (λ shown. shown.unread ≡ (shown_line line.now).1) }
    ensures few { IfOk result (λ shown. shown.unread ≤ length line.now) }
{
    let mut octets = Vec::with_capacity(alloc, line.len())?;
    let mut unread = 0;
    let mut is_after_word = false;
    let mut rest = line;
    while let Some((octet, following)) = rest.split_first() {
        match word_after_gap(alloc, rest, is_after_word)? {
            Some(word) => {
                octets.extend_from_slice(word.octets.as_slice())?;
                unread += unread_octets(word.is_whole);
                is_after_word = true;
                rest = word.rest;
            }
            None => {
                unread += unread_words(rest);
                octets.push(*octet)?;
                is_after_word = false;
                rest = following;
            }
        }
    }
    Ok(ShownLine { octets, unread })
}

/// Whether a body is shown as it stands between its outer blanks: it has no line end, and no "=", with which each
/// encoded word begins.
fn is_plain(value: &[u8]) -> bool
    ensures { result ≡ is_plain value.now }
{
    !value.contains(&b'\n') && !value.contains(&b'=')
}

/// What stands between the outer blanks of a body.
#[tactic(auto, using(crate::proofs::ShownLemmas::utf8_unread))]
fn as_it_stands(alloc: Global, value: &[u8]) -> Result<DisplayText, AllocError>
    ensures text { IfOk result (λ d. string_bytes d.text ≡
        text_of Utf8 (without_outer_blanks value.now)) }
    ensures unread { IfOk result (λ d. d.unread ≡ unread_of Utf8 (without_outer_blanks value.now)) }
    ensures few { IfOk result (λ d. d.unread ≤ 1) }
{
    let decoded = decode(alloc, Charset::Utf8, trimmed(value))?;
    Ok(DisplayText {
        text: decoded.text,
        unread: decoded.unread,
    })
}

/// The text of a field's body as people read it: unfolded (RFC 5322, section 2.2.3), without blanks at both ends, with
/// its encoded words decoded (RFC 2047), and without the blanks between two decoded words (its section 6.2).
///
/// A word is decoded wherever it stands, also beside a comma and in quotation marks, in each charset of
/// `mail_charsets` and with a language (RFC 2231, section 5); its B text may lack padding. A character of UTF-8 that is
/// split over words is put together. What is no such word stays as it was sent and is read as UTF-8, with U+FFFD for
/// each ill-formed part. The one error is out of memory.
#[tactic(auto, unfolding(crate::specs::Display::display_text, crate::specs::Display::display_unread))]
pub fn display(alloc: Global, value: &[u8]) -> Result<DisplayText, AllocError>
    ensures text { IfOk result (λ d. string_bytes d.text ≡ display_text value.now) }
    ensures unread { IfOk result (λ d. d.unread ≡ display_unread value.now) }
    ensures few { IfOk result (λ d. d.unread ≤ length value.now + 1) }
{
    if is_plain(value) {
        return as_it_stands(alloc, value);
    }
    let line = unfolded(alloc, value)?;
    let shown = shown_line(alloc, trimmed(line.as_slice()))?;
    let decoded = decode(alloc, Charset::Utf8, shown.octets.as_slice())?;
    Ok(DisplayText {
        text: decoded.text,
        unread: shown.unread + decoded.unread,
    })
}
