//! The pieces of a pattern of `:matches`, which stand between one `*` and the next.

ghost use Rattle.std.specs.Prelude.{◌≡◌, ℕ, ◌<◌, ◌≤◌, false, length, slice_index};
ghost use Rattle.memchr.specs.Find.{is_byte3};
ghost use Rattle.sieve_match.specs.Pieces.{IsPiece};

use crate::wildcards::next_item;
use memchr::memchr3;
use sieve_meaning::Item;

/// How the items of a piece stand in its pattern.
#[derive(Clone, Copy)]
pub(crate) enum Shape {
    /// Each octet is an item.
    Plain,
    /// Some octets stand behind backslashes, and no item is `?`.
    Escaped,
    /// Some items are `?`.
    Open,
}

/// The piece at the front of a pattern: its items before the first `*`.
#[derive(Clone, Copy)]
pub(crate) struct Piece<'a> {
    /// How many items it has.
    pub(crate) count: usize,
    /// How they stand in the pattern.
    pub(crate) shape: Shape,
    /// The pattern after that `*`; `None` where the pattern has none.
    pub(crate) after: Option<&'a [u8]>,
}

/// The piece at the front of a pattern.
pub(crate) fn next_piece(pattern: &[u8]) -> Piece<'_>
    ensures { IsPiece pattern.now result }
{
    let count = plain_length(pattern);
    let shape = Shape::Plain;
    let Some((&octet, after)) = pattern[count..].split_first() else {
        return Piece {
            count,
            shape,
            after: None,
        };
    };
    if octet == b'*' {
        return Piece {
            count,
            shape,
            after: Some(after),
        };
    }
    counted_piece(pattern)
}

/// How many octets at the front of a pattern are neither `*` nor `?` nor a backslash.
fn plain_length(pattern: &[u8]) -> usize
    ensures within { result ≤ length pattern.now }
    ensures plain { (k : ℕ) → k < result → is_byte3 42 63 92 (slice_index pattern.now k) ≡ false }
{
    match memchr3(b'*', b'?', b'\\', pattern) {
        Some(place) => place,
        None => pattern.len(),
    }
}

/// The piece at the front of a pattern, counted item by item.
fn counted_piece(pattern: &[u8]) -> Piece<'_>
    ensures { IsPiece pattern.now result }
{
    let mut rest = pattern;
    let mut count = 0;
    let mut shape = Shape::Escaped;
    'items: loop {
        match next_item(rest) {
            None => {
                return Piece {
                    count,
                    shape,
                    after: None,
                };
            }
            Some((Item::Any, after)) => {
                return Piece {
                    count,
                    shape,
                    after: Some(after),
                };
            }
            Some((Item::One, after)) => {
                shape = Shape::Open;
                rest = after;
                count += 1;
            }
            Some((Item::Octet(_), after)) => {
                rest = after;
                count += 1;
            }
        }
    }
}
