//! The texts of what deeds are made of.

ghost use Rattle.std.specs.Prelude.{◌≡◌, ◌++◌, codes, map, flat_map, option_map, IfOk};
ghost use Rattle.class_plan.specs.Schedules.{IsInRangeIfAny};
ghost use Rattle.record_history.specs.Lines.{class_text as class_text_of, closed_word as closed_word_of, filing_text as filing_text_of, paths_text as paths_text_of, plan_text as plan_text_of, schedule_words as schedule_words_of, with_comma, seal_text as seal_text_of, state_word as state_word_of};
ghost use Rattle.record_history.specs.Pieces.{joined_of};
ghost use Rattle.record_history.specs.Spelled.{HasSchedules};
ghost use Rattle.record_history.specs.Views.{filing_view, listing_view, seal_view};

use crate::events::{Filing, Listing, Seal};
use class_plan::{Schedule, schedule_text};
use std::alloc::{AllocError, Global};

/// The room for a text, which holds those of most events, so that few have to grow.
pub(crate) const ROOM: usize = 256;

/// The pieces, one after the other.
pub(crate) fn joined(alloc: Global, pieces: &[&[u8]]) -> Result<Vec<u8>, AllocError>
    ensures { IfOk result (λ v. v.items ≡ joined_of (map (λ p. p.now) pieces.now)) }
{
    let mut text = Vec::with_capacity(alloc, ROOM)?;
    for piece in pieces {
        text.extend_from_slice(piece)?;
    }
    Ok(text)
}

pub(crate) fn seal_text(alloc: Global, seal: &Seal) -> Result<Vec<u8>, AllocError>
    ensures { IfOk result (λ v. v.items ≡ seal_text_of (seal_view seal.now)) }
{
    let octets = seal.octets.to_string(alloc)?;
    joined(
        alloc,
        &[octets.as_bytes(), b" ".as_slice(), seal.sum.as_slice()],
    )
}

/// Nothing, where no rules filed the message.
pub(crate) fn filing_text(alloc: Global, filing: &Option<Filing<'_>>) -> Result<Vec<u8>, AllocError>
    ensures { IfOk result (λ v. v.items ≡ filing_text_of (option_map filing_view filing.now)) }
{
    match filing {
        Some(filing) => joined(
            alloc,
            &[
                b" by ".as_slice(),
                filing.officer,
                b" rules ".as_slice(),
                filing.rules,
            ],
        ),
        None => Ok(Vec::new(alloc)),
    }
}

/// The paths with commas between them.
pub(crate) fn paths_text(alloc: Global, paths: &[&[u8]]) -> Result<Vec<u8>, AllocError>
    ensures { IfOk result (λ v. v.items ≡ paths_text_of (map (λ p. p.now) paths.now)) }
{
    match paths {
        [] => Ok(Vec::new(alloc)),
        [first, others @ ..] => with_others(alloc, first, others),
    }
}

/// A path, and each other one after a comma.
fn with_others(alloc: Global, first: &[u8], others: &[&[u8]]) -> Result<Vec<u8>, AllocError>
    ensures { IfOk result
        (λ v. v.items ≡ first.now ++ flat_map with_comma (map (λ p. p.now) others.now)) }
{
    let mut text = Vec::from_slice(alloc, first)?;
    for path in others {
        text.push(b',')?;
        text.extend_from_slice(path)?;
    }
    Ok(text)
}

fn closed_word(is_open: bool) -> &'static [u8]
    ensures { result.now ≡ closed_word_of is_open }
{
    if is_open { b"" } else { b"closed " }
}

/// What follows a path where the class has a schedule of its own.
fn schedule_words(alloc: Global, schedule: Option<Schedule>) -> Result<Vec<u8>, AllocError>
    requires { IsInRangeIfAny schedule }
    ensures { IfOk result (λ v. v.items ≡ schedule_words_of schedule) }
{
    match schedule {
        Some(schedule) => {
            let text = schedule_text(alloc, schedule)?;
            joined(alloc, &[b", ".as_slice(), text.as_slice()])
        }
        None => Ok(Vec::new(alloc)),
    }
}

fn class_pieces<'a>(
    alloc: Global,
    closed: &'a [u8],
    path: &'a [u8],
    schedule: &'a [u8],
) -> Result<Vec<u8>, AllocError>
    ensures { IfOk result
        (λ v. v.items ≡ codes "; " ++ closed.now ++ path.now ++ schedule.now) }
{
    joined(alloc, &[b"; ".as_slice(), closed, path, schedule])
}

fn class_text(
    alloc: Global,
    path: &[u8],
    is_open: bool,
    schedule: Option<Schedule>,
) -> Result<Vec<u8>, AllocError>
    requires { IsInRangeIfAny schedule }
    ensures { IfOk result (λ v. v.items ≡ class_text_of
        (record { path = path.now; is_open = is_open; schedule = schedule })) }
{
    let schedule = schedule_words(alloc, schedule)?;
    class_pieces(alloc, closed_word(is_open), path, schedule.as_slice())
}

pub(crate) fn plan_text(alloc: Global, plan: &Listing<'_>) -> Result<Vec<u8>, AllocError>
    requires { HasSchedules (listing_view plan.now) }
    ensures { IfOk result (λ v. v.items ≡ plan_text_of (listing_view plan.now)) }
{
    let root = schedule_text(alloc, plan.root)?;
    let mut text = joined(alloc, &[b"root ".as_slice(), root.as_slice()])?;
    for class in &plan.classes {
        let class = class_text(alloc, class.0, class.1, class.2)?;
        text.extend_from_slice(class.as_slice())?;
    }
    Ok(text)
}

pub(crate) fn state_word(destroyed: bool) -> &'static [u8]
    ensures { result.now ≡ state_word_of destroyed }
{
    if destroyed { b"destroyed" } else { b"live" }
}
