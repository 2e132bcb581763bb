//! `:matches` (RFC 5228, section 2.7.1): patterns with `*` and `?`, piece by piece.
//!
//! The piece before the first `*` is laid at the front of the value, and the piece after the last one at its end. Each
//! piece between two `*` is laid at the first place that it fits after the one before: if it fits a later place too, the
//! pieces after it have no better one there.

ghost use Rattle.std.specs.Prelude.{◌≡◌, ◌↔◌, ◌-◌, ◌≤◌, length, take, drop, IsTrue};
ghost use Rattle.sieve_meaning.specs.Matching.{items_of, covers, Matches};
ghost use Rattle.sieve_match.specs.Pieces.{FitsFront};

use crate::Comparator;
use crate::pieces::next_piece;
use crate::places::{first_place, fits_front};

/// Whether a pattern covers a whole value, as octets are compared: the match type `:matches` (RFC 5228, section 2.7.1),
/// and the first answer of `matches_counted`.
///
/// For a pattern without `?` the time is linear in pattern and value. A piece with `?` takes time linear in its items
/// times the places that it is laid on, many places at a time.
pub fn matches(pattern: &[u8], value: &[u8], comparator: Comparator) -> bool
    ensures answer { IsTrue result ↔ Matches comparator (items_of pattern.now) value.now }
    ensures test { result ≡ covers comparator (items_of pattern.now) value.now }
{
    pieces_cover(pattern, value, comparator)
}

/// Whether the pieces of a pattern, and what its `*` take between them, cover a whole value.
fn pieces_cover(pattern: &[u8], value: &[u8], comparator: Comparator) -> bool
    ensures { IsTrue result ↔ Matches comparator (items_of pattern.now) value.now }
{
    let front = next_piece(pattern);
    if !fits_front(pattern, front.count, value, comparator) {
        return false;
    }
    let Some(mut items) = front.after else {
        return value.len() == front.count;
    };
    let mut rest = &value[front.count..];
    'pieces: loop {
        let piece = next_piece(items);
        let Some(after) = piece.after else {
            return fits_end(items, piece.count, rest, comparator);
        };
        let Some(place) = first_place(items, &piece, rest, comparator) else {
            return false;
        };
        rest = &rest[place + piece.count..];
        items = after;
    }
}

/// Whether the first `count` items of a pattern fit the end of a text, one octet each.
fn fits_end(pattern: &[u8], count: usize, text: &[u8], comparator: Comparator) -> bool
    ensures { IsTrue result ↔ ((count ≤ length text.now)
        × FitsFront comparator (take count (items_of pattern.now))
        (drop (length text.now - count) text.now)) }
{
    text.len() >= count && fits_front(pattern, count, &text[text.len() - count..], comparator)
}
