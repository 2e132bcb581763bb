//! Words at the front of a text, and what follows them.

ghost use Rattle.std.specs.Prelude.{◌≡◌, ◌==◌, map, option_map, IfOk};
ghost use Rattle.std.specs.List.{position};
ghost use Rattle.record_history.specs.Reading.{Gives, counted_at as counted_at_of, cut as cut_of, from as from_of, greatest_record, number_at as number_at_of, parts_at as parts_at_of, stripped, until};
ghost use Rattle.session_words.specs.Words.{greatest_number};

use crate::faults::LineFault;
use session_words::read_number;
use std::alloc::{AllocError, Global};

/// The octets after a prefix, where the text begins with it.
#[tactic(auto, unfolding(crate::specs::Reading::stripped))]
pub(crate) fn strip_if<'a>(text: &'a [u8], prefix: &[u8]) -> Option<&'a [u8]>
    ensures { option_map (λ r. r.now) result ≡ stripped prefix.now text.now }
{
    text.strip_prefix(prefix)
}

/// The octets after a prefix that the text has to begin with.
pub(crate) fn strip<'a>(text: &'a [u8], prefix: &[u8]) -> Result<&'a [u8], LineFault>
    ensures { Gives (λ r. r.now) result (stripped prefix.now text.now) }
{
    match strip_if(text, prefix) {
        Some(rest) => Ok(rest),
        None => Err(LineFault::NotALine),
    }
}

fn first_place(text: &[u8], mark: u8) -> Option<usize>
    ensures { result ≡ position (λ o. o == mark) text.now }
{
    text.iter().position(|octet| *octet == mark)
}

/// The octets before the first `mark`, and those from it on.
#[tactic(auto, unfolding(crate::specs::Reading::until, crate::specs::Reading::from))]
pub(crate) fn split(text: &[u8], mark: u8) -> (&[u8], &[u8])
    ensures before { result.0.now ≡ until mark text.now }
    ensures after { result.1.now ≡ from_of mark text.now }
{
    let end = first_place(text, mark).unwrap_or(text.len());
    (&text[..end], &text[end..])
}

/// The word before the next space, and what follows it.
pub(crate) fn word(text: &[u8]) -> (&[u8], &[u8])
    ensures before { result.0.now ≡ until 32 text.now }
    ensures after { result.1.now ≡ from_of 32 text.now }
{
    split(text, b' ')
}

/// A number of at most 64 bits.
#[tactic(auto, unfolding(crate::specs::Reading::number_at))]
pub(crate) fn wide_number_at(text: &[u8]) -> Result<(u64, &[u8]), LineFault>
    ensures { Gives (λ x. (x.0, x.1.now)) result (number_at_of greatest_number text.now) }
{
    let (digits, rest) = word(text);
    match read_number(digits, u64::MAX) {
        Some(number) => Ok((number, rest)),
        None => Err(LineFault::NotALine),
    }
}

/// A number of at most 32 bits.
#[tactic(auto, unfolding(crate::specs::Reading::number_at))]
pub(crate) fn number_at(text: &[u8]) -> Result<(u32, &[u8]), LineFault>
    ensures { Gives (λ x. (x.0, x.1.now)) result (number_at_of greatest_record text.now) }
{
    let (digits, rest) = word(text);
    match read_number(digits, u64::from(u32::MAX)) {
        Some(number) => Ok((number as u32, rest)),
        None => Err(LineFault::NotALine),
    }
}

/// The longest text that is counted, in octets.
const LONGEST_COUNTED: u64 = 500;

/// The first octets of a text, and the others, where it has so many.
fn cut(text: &[u8], length: usize) -> Result<(&[u8], &[u8]), LineFault>
    ensures { Gives (λ x. (x.0.now, x.1.now)) result (cut_of length text.now) }
{
    if length > text.len() {
        return Err(LineFault::NotALine);
    }
    Ok((&text[..length], &text[length..]))
}

/// A text after its length in octets, at most 500, as `13:Tax documents`.
#[tactic(auto, unfolding(crate::specs::Reading::counted_at))]
pub(crate) fn counted_at(text: &[u8]) -> Result<(&[u8], &[u8]), LineFault>
    ensures { Gives (λ x. (x.0.now, x.1.now)) result (counted_at_of text.now) }
{
    let (digits, rest) = split(text, b':');
    let Some(length) = read_number(digits, LONGEST_COUNTED) else {
        return Err(LineFault::NotALine);
    };
    let rest = strip(rest, b":")?;
    cut(rest, length as usize)
}

/// The parts of a text between its commas.
#[tactic(auto, unfolding(crate::specs::Reading::parts_at))]
pub(crate) fn comma_parts(alloc: Global, text: &[u8]) -> Result<Vec<&[u8]>, AllocError>
    ensures { IfOk result (λ v. map (λ p. p.now) v.items ≡ parts_at_of 44 text.now) }
{
    text.split(|octet| *octet == b',').collect(alloc)
}

/// The parts of a text between its semicolons.
#[tactic(auto, unfolding(crate::specs::Reading::parts_at))]
pub(crate) fn semicolon_parts(alloc: Global, text: &[u8]) -> Result<Vec<&[u8]>, AllocError>
    ensures { IfOk result (λ v. map (λ p. p.now) v.items ≡ parts_at_of 59 text.now) }
{
    text.split(|octet| *octet == b';').collect(alloc)
}
