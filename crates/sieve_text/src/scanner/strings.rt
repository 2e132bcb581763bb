//! Strings of both kinds (RFC 5228, section 2.4.2): their limit and their values.

ghost use Rattle.std.specs.Prelude.{◌≡◌, length, IfOk, ℕ, IfErr, nat_lt};
ghost use Rattle.sieve_text.specs.Strings.{quoted_value, lines_value};
ghost use Rattle.sieve_text.specs.WrittenStrings.{string_of};
ghost use Rattle.sieve_text.specs.Lexemes.{read_of};
ghost use Rattle.sieve_text.specs.Tokens.{string_kind, Gives, StandsAt, either_place};

use crate::fault::{FaultyPlace, ScanRefusal};
use crate::lexeme::{Lexeme, ShortString, WrittenString};
use crate::scanner::{multi_line, octets, quoted};
use sieve_syntax::{StringText, Text};
use std::alloc::{AllocError, Global};

/// The greatest length of a string's value in octets.
const MAX_OCTETS: usize = 65_535;

/// A string of at most this many octets as written is within the limit, as no octet yields more than two.
const FEW_OCTETS: usize = 32_767;

/// Whether the value of the octets between the quotation marks has more than 65,535 octets.
#[tactic(auto, unfolding(crate::specs::Strings::without_escapes, crate::specs::Strings::with_crlf))]
fn quoted_too_long(body: &[u8]) -> bool
    ensures { result ≡ nat_lt 65535 (length (quoted_value body.now)) }
{
    let mut room = MAX_OCTETS;
    let mut escaped = false;
    let mut after_cr = false;
    for &b in body {
        if b == b'\\' && !escaped {
            escaped = true;
        } else {
            let octets = if b == b'\n' && !after_cr { 2 } else { 1 };
            if room < octets {
                return true;
            }
            room -= octets;
            escaped = false;
            after_cr = b == b'\r';
        }
    }
    false
}

/// Whether the value of the lines has more than 65,535 octets.
#[tactic(auto, unfolding(crate::specs::Strings::without_stuffing, crate::specs::Strings::with_crlf))]
fn lines_too_long(lines: &[u8]) -> bool
    ensures { result ≡ nat_lt 65535 (length (lines_value lines.now)) }
{
    let mut room = MAX_OCTETS;
    let mut rest = lines;
    let mut at_start = true;
    let mut after_cr = false;
    'octets: while let Some((&b, following)) = rest.split_first() {
        if at_start && b == b'.' && octets::starts_with(following, b'.') {
            at_start = false;
        } else {
            let octets = if b == b'\n' && !after_cr { 2 } else { 1 };
            if room < octets {
                return true;
            }
            room -= octets;
            at_start = b == b'\n';
            after_cr = b == b'\r';
        }
        rest = following;
    }
    false
}

/// Whether the value of a string has more than 65,535 octets.
fn is_too_long(written: WrittenString<'_>) -> bool
    ensures { result ≡ nat_lt 65535 (length (string_of written.entry)) }
{
    match written {
        WrittenString::Quoted(body) => body.len() > FEW_OCTETS && quoted_too_long(body),
        WrittenString::Lines(lines) => lines.len() > FEW_OCTETS && lines_too_long(lines),
    }
}

/// The token of a string as written, which begins at this offset and has this length in octets; `StringTooLong` (16)
/// above the limit.
pub fn string(
    written: WrittenString<'_>,
    length: usize,
    at: usize,
) -> Result<(Lexeme<'_>, usize), FaultyPlace>
    ensures value { Gives read_of result (string_kind (string_of written.entry) length) }
    ensures same_length { IfOk result (λ x. x.1 ≡ length) }
    ensures place { (octet : ℕ) → IfErr result (λ e. StandsAt (either_place at octet) e) }
{
    if is_too_long(written) {
        return Err(FaultyPlace::new(ScanRefusal::StringTooLong, at));
    }
    Ok((Lexeme::StringValue(ShortString { written }), length))
}

/// The value of the octets between the quotation marks: the same octets, if there is no backslash and no LF among them.
fn quoted_text(alloc: Global, body: &[u8]) -> Result<Text, AllocError>
    ensures { IfOk result (λ t. t ≡ quoted_value body.now) }
{
    if octets::plain_length(body) == body.len() {
        return Text::from_slice(alloc, body);
    }
    Text::from_vec(alloc, quoted::value(alloc, body)?)
}

/// The octets of a string's value.
fn text_of(alloc: Global, written: WrittenString<'_>) -> Result<Text, AllocError>
    ensures { IfOk result (λ t. t ≡ string_of written.entry) }
{
    match written {
        WrittenString::Quoted(body) => quoted_text(alloc, body),
        WrittenString::Lines(lines) => Text::from_vec(alloc, multi_line::value(alloc, lines)?),
    }
}

/// The value of a string. Fails only if memory runs out.
pub fn string_text(alloc: Global, string: ShortString<'_>) -> Result<StringText, AllocError>
    ensures { IfOk result (λ t. t ≡ string_of string.entry.written) }
{
    let octets = text_of(alloc, string.written)?;
    match StringText::new(octets) {
        Some(text) => Ok(text),
        None => unreachable!(),
    }
}
