//! `:matches` with its comparisons counted (RFC 5228, section 2.7.1): patterns with `*` and `?`.
//!
//! The search goes back to the last `*` only: if the items after it cover some front of the rest, an earlier `*` has no
//! better place. So each item is compared at most once for each place of the value.

ghost use Rattle.std.specs.Prelude.{◌≡◌, ◌≤◌, ◌+◌, ◌*◌, ◌↔◌, ◌∷◌, ◌==◌, [], length, false, IsTrue, MatchOption};
ghost use Rattle.sieve_meaning.specs.Matching.{fold_octet, items_of, covers, Matches};
ghost use Rattle.sieve_match.specs.Search.{Search};
ghost use Rattle.sieve_match.specs.Steps.{turn_of, turn_view, compared_length, octet_count};

use crate::Comparator;
use crate::octets::fold;
use sieve_meaning::Item;

/// What the first item of a pattern does at the front of a text.
#[derive(Drop)]
pub(crate) enum Step<'a> {
    /// There is no item, and no octet.
    Ends,
    /// The item is `*`; with the pattern after it.
    Star(&'a [u8]),
    /// The item takes an octet; with the pattern and the text after them.
    Goes(&'a [u8], &'a [u8]),
    /// The item does not fit, or octets are left and no item.
    Stuck,
}

/// The first item of a pattern, and the pattern after it.
#[tactic(auto, unfolding(sieve_meaning::specs::Matching::items_from))]
pub(crate) fn next_item(pattern: &[u8]) -> Option<(Item, &[u8])>
    ensures { MatchOption result (items_of pattern.now ≡ [])
        (λ x. items_of pattern.now ≡ x.0 ∷ items_of x.1.now) }
{
    let (&octet, rest) = pattern.split_first()?;
    match octet {
        b'*' => Some((Item::Any, rest)),
        b'?' => Some((Item::One, rest)),
        b'\\' => match rest.split_first() {
            Some((&escaped, following)) => Some((Item::Octet(escaped), following)),
            None => Some((Item::Octet(b'\\'), rest)),
        },
        _ => Some((Item::Octet(octet), rest)),
    }
}

/// Whether an octet of a pattern and one of a value compare as equal, and 1 as the number of comparisons. Each
/// comparison of `matches_counted` is made here.
#[inline(always)]
fn compare(comparator: Comparator, item: u8, octet: u8) -> (bool, u128)
    ensures answer { result.0 ≡ (fold_octet comparator item == fold_octet comparator octet) }
    ensures count { result.1 ≡ 1 }
{
    (fold(comparator, item) == fold(comparator, octet), 1)
}

/// What the first item does, and how many octets were compared: 0 or 1.
fn first_step<'a>(comparator: Comparator, pattern: &'a [u8], text: &'a [u8]) -> (Step<'a>, u128)
    ensures value { turn_view result.0 ≡ turn_of comparator (items_of pattern.now) text.now }
    ensures count { result.1 ≡ compared_length (items_of pattern.now) text.now }
{
    match next_item(pattern) {
        None if text.is_empty() => (Step::Ends, 0),
        None => (Step::Stuck, 0),
        Some((Item::Any, after)) => (Step::Star(after), 0),
        Some((Item::One, after)) => match text.split_first() {
            Some((_, following)) => (Step::Goes(after, following), 0),
            None => (Step::Stuck, 0),
        },
        Some((Item::Octet(item), after)) => match text.split_first() {
            Some((&octet, following)) => match compare(comparator, item, octet) {
                (true, compared) => (Step::Goes(after, following), compared),
                (false, compared) => (Step::Stuck, compared),
            },
            None => (Step::Stuck, 0),
        },
    }
}

/// Whether a pattern covers a whole value, as octets are compared, and how many times an octet of the pattern was
/// compared with one of the value: the match type `:matches` (RFC 5228, section 2.7.1).
///
/// `*` matches zero or more octets, and `?` matches one octet. A backslash makes the next octet match itself; a last
/// lone backslash matches a backslash. The items before the first `*` are tried at the front of the value only, and
/// those after a `*` at one place after another. Each try ends with the first item that does not fit; the comparisons
/// of all tries count. For p items and t octets there are at most `(p + 1) * (t + 1)`. If the pattern covers the value,
/// there is at least one for each item that is an octet.
pub fn matches_counted(pattern: &[u8], value: &[u8], comparator: Comparator) -> (bool, u128)
    ensures answer { IsTrue result.0 ↔ Matches comparator (items_of pattern.now) value.now }
    ensures test { result.0 ≡ covers comparator (items_of pattern.now) value.now }
    ensures count { result.1 ≤ (length (items_of pattern.now) + 1) * (length value.now + 1) }
    ensures exact { Search comparator false (items_of pattern.now) value.now result.0 result.1 }
    ensures least { IsTrue result.0 → octet_count (items_of pattern.now) ≤ result.1 }
{
    let mut items = pattern;
    let mut rest = value;
    let mut count = 0;

    // the items after the last `*`, and the value from the place of their last try on
    let mut star: Option<(&[u8], &[u8])> = None;
    'search: loop {
        let (step, compared) = first_step(comparator, items, rest);
        count += compared;
        match step {
            Step::Ends => return (true, count),
            Step::Goes(after, following) => {
                items = after;
                rest = following;
            }
            Step::Star(after) => {
                items = after;
                star = Some((after, rest));
            }
            Step::Stuck => {
                let Some((after, from)) = star else {
                    return (false, count);
                };
                let Some((_, following)) = from.split_first() else {
                    return (false, count);
                };
                items = after;
                rest = following;
                star = Some((after, following));
            }
        }
    }
}
