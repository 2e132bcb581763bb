//! The first place of a text that a piece of a pattern fits.
//!
//! A piece without `?` is found as a key is, in time linear in piece and text. Any other is laid on many places of the
//! text at once: a group of places has a flag for each, and each item of the piece clears the flags of the places that
//! it does not fit, sixteen or more by one instruction of the processor. A group is left when all its flags are clear.

ghost use Rattle.std.specs.Prelude.{◌≡◌, ◌↔◌, ℕ, ◌+◌, ◌<◌, ◌≤◌, ◌||◌, ◌&&◌, ◌==◌, true, false, length, take, map, slice_index, slice_index_or, IsTrue};
ghost use Rattle.memchr.specs.Find.{IsFirst, Nowhere};
ghost use Rattle.sieve_meaning.specs.Matching.{items_of};
ghost use Rattle.sieve_meaning.specs.declared.matching.Item.TheVariants.{Octet};
ghost use Rattle.sieve_match.specs.Pieces.{FitsItem, FitsFront, FitsAt, FindsPiece, IsPiece, AreCases};

use crate::Comparator;
use crate::octets::fold;
use crate::pieces::{Piece, Shape};
use crate::substring::find;
use crate::wildcards::next_item;
use sieve_meaning::Item;

/// The number of places of the first group.
const NEAR_PLACES: usize = 64;

/// The greatest number of places of a later group.
const FAR_PLACES: usize = 4096;

/// The octets of the room for the key of a piece with backslashes, if they are enough.
const SHORT_KEY: usize = 4096;

/// The octets of the room for the key of any other such piece. A pattern of a script is shorter.
const LONG_KEY: usize = 65_536;

/// Whether the first `count` items of a pattern fit the front of a text, one octet each.
pub(crate) fn fits_front(pattern: &[u8], count: usize, text: &[u8], comparator: Comparator) -> bool
    ensures { IsTrue result ↔ FitsFront comparator (take count (items_of pattern.now)) text.now }
{
    let (mut items, mut rest, mut left) = (pattern, text, count);
    'items: while left > 0 {
        let Some((item, after)) = next_item(items) else {
            return true;
        };
        let Some((&octet, following)) = rest.split_first() else {
            return false;
        };
        if !fits_item(comparator, item, octet) {
            return false;
        }
        items = after;
        rest = following;
        left -= 1;
    }
    true
}

/// Whether an item fits an octet.
#[inline(always)]
fn fits_item(comparator: Comparator, item: Item, octet: u8) -> bool
    ensures { IsTrue result ↔ FitsItem comparator item octet }
{
    match item {
        Item::Octet(wanted) => fold(comparator, wanted) == fold(comparator, octet),
        Item::One => true,
        Item::Any => false,
    }
}

/// The first place of a text that the piece at the front of a pattern fits.
pub(crate) fn first_place(
    pattern: &[u8],
    piece: &Piece<'_>,
    text: &[u8],
    comparator: Comparator,
) -> Option<usize>
    requires { IsPiece pattern.now piece.now }
    ensures { FindsPiece comparator pattern.now piece.now.count text.now result }
{
    match piece.shape {
        Shape::Plain => find(&pattern[..piece.count], text, comparator),
        Shape::Escaped if piece.count <= text.len() => {
            place_of_escaped(pattern, piece.count, text, comparator)
        }
        _ => place_by_groups(pattern, piece.count, text, comparator),
    }
}

/// The first place of a text that the first `count` items of a pattern fit, none of which is `?`.
fn place_of_escaped(
    pattern: &[u8],
    count: usize,
    text: &[u8],
    comparator: Comparator,
) -> Option<usize>
    requires within { count ≤ length (items_of pattern.now) }
    ensures { FindsPiece comparator pattern.now count text.now result }
{
    if count <= SHORT_KEY {
        place_of_short_key(pattern, count, text, comparator)
    } else if count <= LONG_KEY {
        place_of_long_key(pattern, count, text, comparator)
    } else {
        place_by_groups(pattern, count, text, comparator)
    }
}

/// The same, with room for a short key.
#[cold]
#[inline(never)]
fn place_of_short_key(
    pattern: &[u8],
    count: usize,
    text: &[u8],
    comparator: Comparator,
) -> Option<usize>
    requires short { count ≤ 4096 }
    requires within { count ≤ length (items_of pattern.now) }
    ensures { FindsPiece comparator pattern.now count text.now result }
{
    let mut room = [0; SHORT_KEY];
    place_of_key(pattern, &mut room[..count], text, comparator)
}

/// The same, with room for a long key.
#[cold]
#[inline(never)]
fn place_of_long_key(
    pattern: &[u8],
    count: usize,
    text: &[u8],
    comparator: Comparator,
) -> Option<usize>
    requires short { count ≤ 65536 }
    requires within { count ≤ length (items_of pattern.now) }
    ensures { FindsPiece comparator pattern.now count text.now result }
{
    let mut room = [0; LONG_KEY];
    place_of_key(pattern, &mut room[..count], text, comparator)
}

/// The first place of a text that the items at the front of a pattern fit, as many as the key has room for. Where they are
/// octets and no wildcards, the key becomes these octets and is searched for.
fn place_of_key(
    pattern: &[u8],
    key: &mut [u8],
    text: &[u8],
    comparator: Comparator,
) -> Option<usize>
    requires { length key.old ≤ length (items_of pattern.now) }
    ensures { FindsPiece comparator pattern.now (length key.old) text.now result }
{
    if copy_octets(pattern, key) {
        find(key, text, comparator)
    } else {
        place_by_groups(pattern, key.len(), text, comparator)
    }
}

/// Writes the octets that the first items of a pattern are; false if one of them is a wildcard, or there are too few.
fn copy_octets(pattern: &[u8], key: &mut [u8]) -> bool
    ensures { IsTrue result → take (length key.new) (items_of pattern.now) ≡ map Octet key.new }
{
    let mut items = pattern;
    for octet in key.iter_mut() {
        let Some((Item::Octet(wanted), after)) = next_item(items) else {
            return false;
        };
        *octet = wanted;
        items = after;
    }
    true
}

/// The first place of a text that the first `count` items of a pattern fit, by groups of places.
fn place_by_groups(
    pattern: &[u8],
    count: usize,
    text: &[u8],
    comparator: Comparator,
) -> Option<usize>
    requires { count ≤ length (items_of pattern.now) }
    ensures { FindsPiece comparator pattern.now count text.now result }
{
    if text.len() < count {
        return None;
    }
    let places = text.len() - count + 1;
    let near = places.min(NEAR_PLACES);
    let mut fits = [true; NEAR_PLACES];
    if let Some(place) = place_in_group(pattern, count, text, comparator, &mut fits[..near]) {
        return Some(place);
    }
    if near == places {
        return None;
    }
    place_from(pattern, count, text, comparator, near)
}

/// The same from a place of the text on, if no earlier place fits.
#[inline(never)]
fn place_from(
    pattern: &[u8],
    count: usize,
    text: &[u8],
    comparator: Comparator,
    from: usize,
) -> Option<usize>
    requires items { count ≤ length (items_of pattern.now) }
    requires within { from + count ≤ length text.now + 1 }
    requires passed { Nowhere (FitsAt comparator (take count (items_of pattern.now)) text.now)
        0 from }
    ensures { FindsPiece comparator pattern.now count text.now result }
{
    let mut fits = [true; FAR_PLACES];
    let mut at = from;
    'groups: while at + count <= text.len() {
        let places = (text.len() - count - at + 1).min(FAR_PLACES);
        let group = &mut fits[..places];
        if let Some(place) = place_in_group(pattern, count, &text[at..], comparator, group) {
            return Some(at + place);
        }
        at += places;
    }
    None
}

/// The first of a group of places at the front of a text that the first `count` items of a pattern fit. The group has a
/// place for each flag.
fn place_in_group(
    pattern: &[u8],
    count: usize,
    text: &[u8],
    comparator: Comparator,
    fits: &mut [bool],
) -> Option<usize>
    requires items { count ≤ length (items_of pattern.now) }
    requires within { length fits.old + count ≤ length text.now + 1 }
    ensures { IsFirst (FitsAt comparator (take count (items_of pattern.now)) text.now)
        0 (length fits.old) result }
{
    set_all(fits, true);
    let (mut items, mut offset) = (pattern, 0);
    'items: while offset < count {
        let (item, after) = next_item(items)?;
        if !keep_fitting(fits, item, &text[offset..], comparator) {
            return None;
        }
        items = after;
        offset += 1;
    }
    first_flag(fits)
}

/// Gives each flag a value.
fn set_all(flags: &mut [bool], value: bool)
    ensures { (k : ℕ) → k < length flags.old → slice_index_or flags.new k false ≡ value }
{
    for flag in flags.iter_mut() {
        *flag = value;
    }
}

/// The first place whose flag is set.
fn first_flag(flags: &[bool]) -> Option<usize>
    ensures { IsFirst (λ k. slice_index_or flags.now k false ≡ true) 0 (length flags.now) result }
{
    for place in 0..flags.len() {
        if flags[place] {
            return Some(place);
        }
    }
    None
}

/// Clears the flag of each place whose octet an item does not fit, and answers whether any flag may be left.
fn keep_fitting(fits: &mut [bool], item: Item, octets: &[u8], comparator: Comparator) -> bool
    requires { length fits.old ≤ length octets.now }
    ensures kept { (k : ℕ) → k < length fits.old → (slice_index_or fits.new k false ≡ true)
        ↔ ((slice_index_or fits.old k false ≡ true)
        × FitsItem comparator item (slice_index octets.now k)) }
    ensures none { result ≡ false → (k : ℕ) → k < length fits.old
        → slice_index_or fits.new k false ≡ false }
{
    match item {
        Item::Octet(octet) => {
            let (first, second) = cases_of(comparator, octet);
            keep_equal(fits, octets, first, second)
        }
        Item::One => true,
        Item::Any => {
            set_all(fits, false);
            false
        }
    }
}

/// The octets that an octet is equal to, as they are compared.
fn cases_of(comparator: Comparator, octet: u8) -> (u8, u8)
    ensures { AreCases comparator octet result.0 result.1 }
{
    match comparator {
        Comparator::Octet => (octet, octet),
        Comparator::Casemap => (octet.to_ascii_uppercase(), octet.to_ascii_lowercase()),
    }
}

/// Clears the flag of each place whose octet is neither of two, and answers whether any flag is left. The loop has no
/// branch, so that the compiler makes it one over vectors.
#[inline(never)]
fn keep_equal(fits: &mut [bool], octets: &[u8], first: u8, second: u8) -> bool
    requires { length fits.old ≤ length octets.now }
    ensures kept { (k : ℕ) → k < length fits.old → slice_index_or fits.new k false
        ≡ (slice_index_or fits.old k false
        && (slice_index octets.now k == first || slice_index octets.now k == second)) }
    ensures none { result ≡ false → (k : ℕ) → k < length fits.old
        → slice_index_or fits.new k false ≡ false }
{
    let mut any = false;
    for place in 0..fits.len() {
        let octet = octets[place];
        let fit = fits[place] & ((octet == first) | (octet == second));
        fits[place] = fit;
        any |= fit;
    }
    any
}
