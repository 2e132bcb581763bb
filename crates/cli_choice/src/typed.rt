//! What is typed of a choice.

ghost use Rattle.std.specs.Prelude.{◌≡◌, ◌<◌, ◌≤◌, ◌^◌, ◌||◌, ◌∷◌, [], ℕ, not, map, filter, true, option_map, IfOk};
ghost use Rattle.std.specs.List.{list_any};
ghost use Rattle.std.specs.BTreeSet.{contains};
ghost use Rattle.std.specs.Ordering.{nat_cmp};
ghost use Rattle.record_choice.specs.Choices.{is_in};
ghost use Rattle.record_choice.specs.Disposals.{is_one_of};
ghost use Rattle.record_choice.specs.Views.{span_view, choice_view};
ghost use Rattle.cli_choice.specs.Typed.{span_typed, spans_typed, choice_typed, is_number, is_among, is_one, singles};

use choice_words::{Choice, TypedNumbers};
use record_choice::{Holder, Span};
use std::alloc::{AllocError, Global};
use std::collections::BTreeSet;

/// The span of numbers that are typed.
fn span_of(typed: TypedNumbers) -> Span
    ensures { span_view result ≡ span_typed typed }
{
    match typed {
        TypedNumbers::One(number) => Span {
            first: number,
            last: number,
        },
        TypedNumbers::Range { first, last } => Span { first, last },
    }
}

/// The spans of numbers that are typed.
fn spans_of(alloc: Global, typed: &[TypedNumbers]) -> Result<Vec<Span>, AllocError>
    ensures { IfOk result (λ v. map span_view v.items ≡ map span_typed typed.now) }
{
    let mut spans = Vec::with_capacity(alloc, typed.len())?;
    for numbers in typed {
        spans.push(span_of(*numbers))?;
    }
    Ok(spans)
}

/// The numbers that are asked for. None where no number is typed, so that each is asked for.
pub fn numbers_of(alloc: Global, typed: &[TypedNumbers]) -> Result<Option<Vec<Span>>, AllocError>
    ensures { IfOk result
        (λ o. option_map (λ v. map span_view v.items) o ≡ spans_typed typed.now) }
{
    match typed {
        [] => Ok(None),
        _ => Ok(Some(spans_of(alloc, typed)?)),
    }
}

/// The octets of a text, if there is one.
fn octets_of(alloc: Global, text: Option<&str>) -> Result<Option<Vec<u8>>, AllocError>
    ensures { IfOk result
        (λ o. option_map (λ v. v.items) o ≡ option_map (λ t. t.now) text.entry) }
{
    match text {
        Some(text) => Ok(Some(Vec::from_slice(alloc, text.as_bytes())?)),
        None => Ok(None),
    }
}

/// The choice that is typed: each condition that is typed, and no other. The number from which records are looked at is no
/// part of it, nor is what is asked of messages.
pub fn choice_of(alloc: Global, typed: &Choice<'_>) -> Result<record_choice::Choice, AllocError>
    ensures { IfOk result (λ c. choice_view c ≡ choice_typed typed.now) }
{
    let numbers = numbers_of(alloc, typed.numbers.as_slice())?;
    let class = octets_of(alloc, typed.class)?;
    let held = if typed.is_held {
        Some(Holder::Anyone)
    } else {
        None
    };
    Ok(record_choice::Choice {
        numbers,
        class,
        is_live: typed.is_live,
        is_destroyed: typed.is_destroyed,
        held,
        since: typed.since,
        until: typed.until,
        due: typed.due,
    })
}

/// The same span, made wide enough for numbers that are typed.
fn widened(span: Span, typed: TypedNumbers) -> Span
    ensures { (n : ℕ) → (is_in n (span_view span) || is_number n typed) ≡ true
        → is_in n (span_view result) ≡ true }
{
    let other = span_of(typed);
    Span {
        first: span.first.min(other.first),
        last: span.last.max(other.last),
    }
}

/// A span in which the numbers of a first word and of others are.
fn span_of_all(first: TypedNumbers, others: &[TypedNumbers]) -> Span
    ensures { (n : ℕ) → is_among (first ∷ others.now) n ≡ true → is_in n (span_view result) ≡ true }
{
    let mut span = span_of(first);
    for numbers in others {
        span = widened(span, *numbers);
    }
    span
}

/// A span in which each number is that is typed, and each number of all where none is typed.
pub fn bounds_of(typed: &[TypedNumbers]) -> Span
    ensures typed { (n : ℕ) → is_among typed.now n ≡ true → is_in n (span_view result) ≡ true }
    ensures every { typed.now ≡ [] → (n : ℕ) → 1 ≤ n → n < 2 ^ 32
        → is_in n (span_view result) ≡ true }
{
    match typed {
        [] => Span {
            first: 1,
            last: u32::MAX,
        },
        [first, rest @ ..] => span_of_all(*first, rest),
    }
}

/// Whether a word is this number alone.
fn is_one(typed: TypedNumbers, number: u32) -> bool
    ensures { result ≡ is_one number typed }
{
    match typed {
        TypedNumbers::One(one) => one == number,
        TypedNumbers::Range { .. } => false,
    }
}

/// Whether a number is typed by itself, and not only in a range.
pub fn is_single(typed: &[TypedNumbers], number: u32) -> bool
    ensures { result ≡ list_any (is_one number) typed.now }
{
    typed.iter().any(|numbers| is_one(*numbers, number))
}

/// The set of some numbers.
pub fn set_of(alloc: Global, numbers: &[u32]) -> Result<BTreeSet<u32>, AllocError>
    ensures { IfOk result (λ s. (n : ℕ) → contains nat_cmp s n ≡ is_one_of numbers.now n) }
{
    let mut set = BTreeSet::new(alloc);
    for number in numbers {
        let _new = set.insert(*number)?;
    }
    Ok(set)
}

/// The numbers that are typed by themselves.
pub(crate) fn singles_of(alloc: Global, typed: &[TypedNumbers]) -> Result<Vec<u32>, AllocError>
    ensures { IfOk result (λ v. v.items ≡ singles typed.now) }
{
    let mut numbers = Vec::new(alloc);
    for word in typed {
        if let TypedNumbers::One(number) = word {
            numbers.push(*number)?;
        }
    }
    Ok(numbers)
}

/// Those of some numbers that are not among others.
fn not_among(alloc: Global, numbers: Vec<u32>, others: &[u32]) -> Result<Vec<u32>, AllocError>
    ensures { IfOk result (λ v. v.items ≡
        filter (λ n. not (is_one_of others.now n)) numbers.items) }
{
    let set = set_of(alloc, others)?;
    let mut kept = Vec::new(alloc);
    for number in numbers {
        if !set.contains(&number) {
            kept.push(number)?;
        }
    }
    Ok(kept)
}

/// The numbers that are typed by themselves and were not found, in the order in which they are typed.
pub fn not_found(
    alloc: Global,
    typed: &[TypedNumbers],
    found: &[u32],
) -> Result<Vec<u32>, AllocError>
    ensures { IfOk result
        (λ v. v.items ≡ filter (λ n. not (is_one_of found.now n)) (singles typed.now)) }
{
    let singles = singles_of(alloc, typed)?;
    not_among(alloc, singles, found)
}
