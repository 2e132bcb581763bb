//! A search for a key under `i;ascii-casemap`, in time linear in key and value and without allocation: Two-Way (M.
//! Crochemore and D. Perrin, "Two-way string-matching", Journal of the ACM 38, 1991) over octets as they are compared.
//!
//! A key is cut at a place where each repeat across the cut is a period of the whole key. The part right of the cut is
//! compared first, from the cut on, and then the part left of it. A mismatch on the right moves the search past what
//! was compared there. A mismatch on the left moves it by the key's period where that is known, and a front of the key
//! is then known to fit. Otherwise it moves it by a number below which the key has no period.
//!
//! Where nothing is known of a place, `memchr2` looks for the next place of one octet of the key, in either case.

ghost use Rattle.std.specs.Prelude.{◌≡◌, ◌≢◌, ◌↔◌, ℕ, ◌+◌, ◌-◌, ◌*◌, ◌<◌, ◌≤◌, Some, length, IsTrue};
ghost use Rattle.std.specs.Ordering.{MatchOrdering};
ghost use Rattle.memchr.specs.Critical.{IsSuffixAt, IsCutPlace};
ghost use Rattle.memchr.specs.Find.{IsFirst};
ghost use Rattle.memchr.specs.TwoWay.{IsNextCandidate};
ghost use Rattle.sieve_match.specs.TwoWay.{folded_octet, StandsAt, Precedes, IsPlan};

use crate::Comparator;
use crate::octets::fold;
use memchr::arch::all::packedpair::Pair;
use memchr::memchr2;
use std::cmp::Ordering;

/// The first place of a value at which a key occurs, as octets are compared.
pub(crate) fn find_folded(key: &[u8], value: &[u8]) -> Option<usize>
    ensures { IsFirst (StandsAt value.now key.now) 0 (length value.now + 1) result }
{
    if key.is_empty() {
        return Some(0);
    }
    Plan::new(key).find(key, value)
}

/// An octet of a text, as it is compared.
#[tactic(auto, unfolding(crate::specs::TwoWay::folded_octet))]
#[inline(always)]
fn folded_at(text: &[u8], place: usize) -> u8
    requires { place < length text.now }
    ensures { result ≡ folded_octet text.now place }
{
    fold(Comparator::Casemap, text[place])
}

/// An order of octets, by which the suffixes of a key are compared.
#[derive(Clone, Copy)]
pub(crate) enum Order {
    /// The smaller octet comes first.
    Rising,
    /// The greater octet comes first.
    Falling,
}

impl Order {
    #[tactic(auto, unfolding(crate::specs::TwoWay::Precedes))]
    #[inline(always)]
    fn compare(self, left: u8, right: u8) -> Ordering
        ensures { MatchOrdering result (Precedes self left right) (left ≡ right)
            (Precedes self right left) }
    {
        match self {
            Order::Rising => left.cmp(&right),
            Order::Falling => right.cmp(&left),
        }
    }
}

/// The greatest suffix of a key.
#[derive(Clone, Copy)]
struct Suffix {
    /// Where it begins.
    place: usize,
    /// Its least period.
    period: usize,
}

/// The greatest suffix of a key by an order.
fn greatest_suffix(key: &[u8], order: Order) -> Suffix
    requires { 0 < length key.now }
    ensures { IsSuffixAt (Precedes order) (folded_octet key.now)
        (length key.now) result.place result.period }
{
    let (mut place, mut period) = (0, 1);
    let (mut candidate, mut offset) = (1, 0);
    'suffixes: while candidate + offset < key.len() {
        let best = folded_at(key, place + offset);
        let other = folded_at(key, candidate + offset);
        match order.compare(best, other) {
            Ordering::Less => {
                place = candidate;
                period = 1;
                candidate += 1;
                offset = 0;
            }
            Ordering::Greater => {
                candidate += offset + 1;
                offset = 0;
                period = candidate - place;
            }
            Ordering::Equal => {
                if offset + 1 == period {
                    candidate += period;
                    offset = 0;
                } else {
                    offset += 1;
                }
            }
        }
    }
    Suffix { place, period }
}

/// Whether each octet before the cut is equal to the one a period after it.
fn repeats_before(key: &[u8], cut: usize, period: usize) -> bool
    requires { cut + period ≤ length key.now }
    ensures { IsTrue result
        ↔ ((k : ℕ) → k < cut → folded_octet key.now k ≡ folded_octet key.now (k + period)) }
{
    for place in 0..cut {
        if folded_at(key, place) != folded_at(key, place + period) {
            return false;
        }
    }
    true
}

/// The place of an octet of the key that is rare in most text.
fn rare_place(key: &[u8]) -> usize
    requires { 0 < length key.now }
    ensures { result < length key.now }
{
    match Pair::new(key) {
        Some(pair) => usize::from(pair.index1()),
        None => 0,
    }
}

/// The first place in the key, from `start` on, that does not fit, if the key is laid at the place `at` of the value;
/// the key's length if there is none.
#[inline(always)]
fn fits_to(key: &[u8], value: &[u8], at: usize, start: usize) -> usize
    requires within { at + length key.now ≤ length value.now }
    requires from { start ≤ length key.now }
    ensures low { start ≤ result }
    ensures high { result ≤ length key.now }
    ensures same { (k : ℕ) → start ≤ k → k < result
        → folded_octet key.now k ≡ folded_octet value.now (at + k) }
    ensures differs { result < length key.now
        → folded_octet key.now result ≢ folded_octet value.now (at + result) }
{
    let mut end = start;
    while end < key.len() && folded_at(key, end) == folded_at(value, at + end) {
        end += 1;
    }
    end
}

/// Whether the octets of the key from `low` up to `high` fit, if the key is laid at the place `at` of the value.
#[inline(always)]
fn fits_between(key: &[u8], value: &[u8], at: usize, low: usize, high: usize) -> bool
    requires within { at + length key.now ≤ length value.now }
    requires top { high ≤ length key.now }
    ensures { IsTrue result ↔ ((k : ℕ) → low ≤ k → k < high
        → folded_octet key.now k ≡ folded_octet value.now (at + k)) }
{
    for place in low..high {
        if folded_at(key, place) != folded_at(value, at + place) {
            return false;
        }
    }
    true
}

/// What a search needs to know of its key.
#[derive(Clone, Copy)]
pub(crate) struct Plan {
    /// Where the key is cut.
    cut: usize,
    /// How far the search moves if the octets right of the cut fit and one left of it does not.
    shift: usize,
    /// How many octets at the front of the key are known to fit after that move.
    kept: usize,
    /// The place of a rare octet.
    rare: usize,
}

impl Plan {
    fn new(key: &[u8]) -> Plan
        requires { 0 < length key.now }
        ensures { IsPlan (folded_octet key.now) (length key.now) result }
    {
        let rising = greatest_suffix(key, Order::Rising);
        let falling = greatest_suffix(key, Order::Falling);
        if falling.place > rising.place {
            Plan::at(key, falling.place, falling.period)
        } else {
            Plan::at(key, rising.place, rising.period)
        }
    }

    /// The plan of a key that is cut before a suffix of this least period.
    fn at(key: &[u8], cut: usize, period: usize) -> Plan
        requires { IsCutPlace (folded_octet key.now) (length key.now) cut period }
        ensures { IsPlan (folded_octet key.now) (length key.now) result }
    {
        let rare = rare_place(key);
        if cut * 2 < key.len() && repeats_before(key, cut, period) {
            return Plan {
                cut,
                shift: period,
                kept: key.len() - period,
                rare,
            };
        }
        Plan {
            cut,
            shift: cut.max(key.len() - cut),
            kept: 0,
            rare,
        }
    }

    /// The first place of a value at which the key occurs.
    fn find(&self, key: &[u8], value: &[u8]) -> Option<usize>
        requires some { 0 < length key.now }
        requires plan { IsPlan (folded_octet key.now) (length key.now) self.now }
        ensures { IsFirst (StandsAt value.now key.now) 0 (length value.now + 1) result }
    {
        let (mut at, mut known) = (0, 0);
        'places: while at + key.len() <= value.len() {
            at = self.next_place(key, value, at, known)?;
            let end = fits_to(key, value, at, self.cut.max(known));
            if end < key.len() {
                at += end - self.cut + 1;
                known = 0;
                continue;
            }
            if fits_between(key, value, at, known, self.cut) {
                return Some(at);
            }
            at += self.shift;
            known = self.kept;
        }
        None
    }

    /// The next place from `at` on that may hold the key, if its first `known` octets are known to fit at `at`.
    #[inline(always)]
    fn next_place(&self, key: &[u8], value: &[u8], at: usize, known: usize) -> Option<usize>
        requires rare { self.now.rare < length key.now }
        requires within { at + length key.now ≤ length value.now }
        ensures next { IsNextCandidate (StandsAt value.now key.now) at
            (length value.now + 1 - length key.now) result }
        ensures stays { 0 < known → result ≡ Some at }
    {
        if known > 0 || folded_at(value, at + self.rare) == folded_at(key, self.rare) {
            return Some(at);
        }
        let octet = key[self.rare];
        let ahead = &value[at + self.rare..value.len() - key.len() + self.rare + 1];
        let (upper, lower) = (octet.to_ascii_uppercase(), octet.to_ascii_lowercase());
        let skipped = memchr2(upper, lower, ahead)?;
        Some(at + skipped)
    }
}
