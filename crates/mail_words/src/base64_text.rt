//! B text (RFC 2047, section 4.1).

ghost use Rattle.std.specs.Prelude.{◌≡◌, ◌≤◌, length, take, drop, IfOk, IfSome, MatchOption};
ghost use Rattle.mail_words.specs.Unfolding.{without_line_ends};
ghost use Rattle.mail_words.specs.Charsets.{ArePut};
ghost use Rattle.mail_words.specs.Decoding.{b_octets};

use crate::charset::{Charset, append_octets};
use crate::unfolding::{first_octet, is_empty};
use base64::engine::general_purpose::STANDARD;
use std::alloc::AllocError;

/// How many symbols are decoded at once: whole groups of four.
const SYMBOLS: usize = 64;

/// How many octets 64 symbols encode.
const OCTETS: usize = 48;

/// Reads the first symbols of a text, as many as there is room for. Answers their number, and the rest of the text.
fn read_symbols<'a>(text: &'a [u8], symbols: &mut [u8; SYMBOLS]) -> (usize, &'a [u8])
    ensures read { take result.0 symbols.new ≡ take 64 (without_line_ends text.now) }
    ensures following { without_line_ends result.1.now ≡ drop 64 (without_line_ends text.now) }
    ensures within { result.0 ≤ 64 }
{
    let mut count = 0;
    let mut rest = text;
    while count < SYMBOLS {
        let Some((octet, following)) = first_octet(rest) else {
            return (count, rest);
        };
        symbols[count] = octet;
        count += 1;
        rest = following;
    }
    (count, rest)
}

/// Decodes symbols. Answers how many octets they encode, or None where they are not a padded encoding.
fn decode_symbols(symbols: &[u8], octets: &mut [u8; OCTETS]) -> Option<usize>
    requires { length symbols.now ≤ 64 }
    ensures value { MatchOption result (b_octets symbols.now ≡ None) (λ size. b_octets symbols.now ≡
        Some (take size octets.new)) }
    ensures within { IfSome result (λ size. size ≤ 48) }
    ensures size { IfSome result (λ size. length (take size octets.new) ≡ size) }
{
    match STANDARD.decode_slice_unchecked(symbols, octets) {
        Ok(size) => Some(size),
        Err(_) => None,
    }
}

/// Appends the octets that B text encodes with padding (RFC 4648, section 4), as they are written in a charset. Answers
/// whether the text is good. Where it is bad, some octets may have been appended.
pub fn append_b(shown: &mut Vec<u8>, charset: Charset, text: &[u8]) -> Result<bool, AllocError>
    ensures { IfOk result (λ good. ArePut good charset shown.old.items
        (b_octets (without_line_ends text.now)) shown.new.items) }
{
    let mut symbols = [0u8; SYMBOLS];
    let mut octets = [0u8; OCTETS];
    let mut rest = text;
    'groups: while !is_empty(rest) {
        let (count, following) = read_symbols(rest, &mut symbols);
        let Some(size) = decode_symbols(&symbols[..count], &mut octets) else {
            return Ok(false);
        };
        // Padding stands only at the end.
        if size < OCTETS && !is_empty(following) {
            return Ok(false);
        }
        append_octets(shown, charset, &octets[..size])?;
        rest = following;
    }
    Ok(true)
}
