//! Commands as a person types them, with the paths of files in place of lengths.

ghost use Rattle.std.specs.Prelude.{◌≡◌, ◌++◌, ◌≤◌, ◌<◌, true, length, slice_index, map, IfOk, IfSome, OnOk};
ghost use Rattle.std.specs.List.{join_with_byte};
ghost use Rattle.session_words.specs.Words.{words_of};
ghost use Rattle.tool_texts.specs.Framing.{line_of, session_word, word_of, path_in};

use crate::forms::{Payload, Slot, slots};
use itoa::Buffer;
use session_words::read_length;
use std::alloc::{AllocError, Global};

/// A word of a command, and what replaces it in a session.
#[derive(Clone, Copy)]
pub enum LinePart<'a> {
    /// The word itself.
    Word(&'a [u8]),
    /// `@now`: replaced by the seconds of the clock.
    Moment,
    /// `@PATH` or `@"PATH"`: replaced by the length of the file at this path, whose octets follow the line. The path is
    /// as typed: see `path_of`.
    File(Payload, &'a [u8]),
    /// A length in octets, as typed: that number of octets follows the line where it was typed.
    Here(&'a [u8], u32),
}

/// The part that a word of this slot is, or a word of none.
fn read_word(slot: Option<Slot>, word: &[u8]) -> LinePart<'_>
    ensures { word_of result ≡ word.now }
{
    match (slot, word) {
        (Some(Slot::Moment), b"@now") => LinePart::Moment,
        (Some(Slot::Length(payload)), [b'@', path @ ..]) => LinePart::File(payload, path),
        (Some(Slot::Length(_)), _) => match read_length(word) {
            Some(count) => LinePart::Here(word, count),
            None => LinePart::Word(word),
        },
        _ => LinePart::Word(word),
    }
}

/// The words of a line without its line feed.
pub(crate) fn words(alloc: Global, line: &[u8]) -> Result<Vec<&[u8]>, AllocError>
    ensures { IfOk result (λ v. map (λ w. w.now) v.items ≡ words_of line.now) }
{
    line.split(|octet| *octet == b' ').collect(alloc)
}

/// A path as it was typed, without the quotation marks that it stands in, if it does.
pub fn path_of(typed: &[u8]) -> &[u8]
    ensures { result.now ≡ path_in typed.now }
{
    match typed {
        [b'"', path @ .., b'"'] => path,
        _ => typed,
    }
}

/// Whether a word ends at an offset: a space comes there, or nothing.
fn ends_word(rest: &[u8], at: usize) -> bool
    ensures { result ≡ true → at < length rest.now → slice_index rest.now at ≡ 32 }
{
    at >= rest.len() || rest[at] == b' '
}

/// Where the first word of a rest ends that begins with `@"`: after the first quotation mark that ends a word. None
/// where there is none.
fn end_of_quoted(rest: &[u8]) -> Option<usize>
    ensures within { IfSome result (λ n. n ≤ length rest.now) }
    ensures space { IfSome result (λ n. n < length rest.now → slice_index rest.now n ≡ 32) }
{
    for index in 2..rest.len() {
        if rest[index] == b'"' && ends_word(rest, index + 1) {
            return Some(index + 1);
        }
    }
    None
}

/// Where the first word of a rest ends that has no space.
fn end_of_plain(rest: &[u8]) -> usize
    ensures within { result ≤ length rest.now }
    ensures space { result < length rest.now → slice_index rest.now result ≡ 32 }
{
    for index in 0..rest.len() {
        if rest[index] == b' ' {
            return index;
        }
    }
    rest.len()
}

/// Where the first word of a rest ends: before a space, or at the end.
fn word_end(rest: &[u8]) -> usize
    ensures within { result ≤ length rest.now }
    ensures space { result < length rest.now → slice_index rest.now result ≡ 32 }
{
    if rest.starts_with(b"@\"") {
        if let Some(end) = end_of_quoted(rest) {
            return end;
        }
    }
    end_of_plain(rest)
}

/// The words of a line as it was typed, without its line feed. A word has no space, but for a path in quotation marks.
fn typed_words(alloc: Global, line: &[u8]) -> Result<Vec<&[u8]>, AllocError>
    ensures { IfOk result (λ v. join_with_byte 32 (map (λ w. w.now) v.items) ≡ line.now) }
{
    let mut words = Vec::new(alloc);
    let mut rest = line;
    loop {
        let end = word_end(rest);
        words.push(&rest[..end])?;
        if end == rest.len() {
            return Ok(words);
        }
        rest = &rest[end + 1..];
    }
}

/// The parts of a line as it was typed, without its line feed: one for each word, in order, with one space between each
/// two. A word that begins with `@"` ends with the next quotation mark that a space or the line's end follows, and where
/// there is none, with the next space, as each other word. Fails only if memory runs out.
pub fn parts(alloc: Global, line: &[u8]) -> Result<Vec<LinePart<'_>>, AllocError>
    ensures { IfOk result (λ v. join_with_byte 32 (map word_of v.items) ≡ line.now) }
{
    let words = typed_words(alloc, line)?;
    let slots = slots(words.first().copied().unwrap_or(b""));
    let mut parts = Vec::new(alloc);
    for (index, word) in words.iter().enumerate() {
        let slot = match index.checked_sub(1) {
            Some(after) => slots.get(after).copied(),
            None => None,
        };
        parts.push(read_word(slot, *word))?;
    }
    Ok(parts)
}

/// A word of a command as a session takes it.
#[derive(Drop)]
pub enum Framed<'a> {
    /// The word as it was typed.
    Word(&'a [u8]),
    /// A moment, in seconds since 1970-01-01T00:00:00Z.
    Moment(u64),
    /// The octets of a file, whose number is in the line and which follow the line.
    File(Vec<u8>),
    /// A length as typed: that number of octets follows the line where it was typed.
    Here(&'a [u8], u32),
}

/// Puts a word at the end of a line.
fn spell(line: &mut Vec<u8>, word: &Framed<'_>) -> Result<(), AllocError>
    ensures { OnOk result (line.new.items ≡ line.old.items ++ session_word word.now) }
{
    let mut buffer = Buffer::new();
    match word {
        Framed::Word(word) | Framed::Here(word, _) => line.extend_from_slice(*word),
        Framed::Moment(seconds) => line.extend_from_slice(buffer.format(*seconds).as_bytes()),
        Framed::File(octets) => line.extend_from_slice(buffer.format(octets.len()).as_bytes()),
    }
}

/// The line of a command as a session takes it, with its line feed. A moment and a file's number of octets are decimal,
/// and one space separates two words. Fails only if memory runs out.
pub fn framed_line(alloc: Global, words: &[Framed<'_>]) -> Result<Vec<u8>, AllocError>
    ensures { IfOk result (λ v. v.items ≡ line_of words.now) }
{
    let mut line = Vec::new(alloc);
    for (index, word) in words.iter().enumerate() {
        if index > 0 {
            line.push(b' ')?;
        }
        spell(&mut line, word)?;
    }
    line.push(b'\n')?;
    Ok(line)
}
