//! The texts of deeds.

ghost use Rattle.std.specs.Prelude.{◌≡◌, ◌++◌, codes, decimal, map, option_map, IfOk};
ghost use Rattle.class_plan.specs.Schedules.{IsInRange};
ghost use Rattle.record_history.specs.Lines.{captured_text as captured_text_of, counted_text as counted_text_of, deed_text as deed_text_of, destroyed_text as destroyed_text_of, plan_text as plan_text_of, record_text as record_text_of, refiled_text as refiled_text_of, seal_text as seal_text_of, titled_text as titled_text_of};
ghost use Rattle.record_history.specs.Spelled.{HasSchedules, IsDay, IsSpelledDeed};
ghost use Rattle.record_history.specs.Views.{deed_view, filing_view, listing_view, seal_view};

use crate::dates::day_text;
use crate::events::{Deed, Filing, Listing, Seal};
use crate::texts::{filing_text, joined, paths_text, plan_text, seal_text, state_word};
use class_plan::{Schedule, schedule_text};
use std::alloc::{AllocError, Global};

fn captured_text(
    alloc: Global,
    first: u32,
    seal: &Seal,
    day: u32,
    filing: &Option<Filing<'_>>,
    paths: &[&[u8]],
) -> Result<Vec<u8>, AllocError>
    requires { IsDay day }
    ensures { IfOk result (λ v. v.items ≡ captured_text_of first (seal_view seal.now) day
        (option_map filing_view filing.now) (map (λ p. p.now) paths.now)) }
{
    let first = first.to_string(alloc)?;
    let day = day_text(alloc, day)?;
    let seal = seal_text(alloc, seal)?;
    let filing = filing_text(alloc, filing)?;
    let paths = paths_text(alloc, paths)?;
    joined(
        alloc,
        &[
            b"captured ".as_slice(),
            first.as_bytes(),
            b" on ".as_slice(),
            day.as_slice(),
            b" message ".as_slice(),
            seal.as_slice(),
            filing.as_slice(),
            b" in ".as_slice(),
            paths.as_slice(),
        ],
    )
}

/// A word, a name and the number of a record.
fn hold_text<'a>(
    alloc: Global,
    deed: &'a [u8],
    name: &'a [u8],
    number: u32,
) -> Result<Vec<u8>, AllocError>
    ensures { IfOk result (λ v. v.items ≡ deed.now ++ name.now ++ codes " " ++ decimal number) }
{
    let number = number.to_string(alloc)?;
    hold_pieces(alloc, deed, name, number.as_bytes())
}

fn hold_pieces<'a>(
    alloc: Global,
    deed: &'a [u8],
    name: &'a [u8],
    number: &'a [u8],
) -> Result<Vec<u8>, AllocError>
    ensures { IfOk result (λ v. v.items ≡ deed.now ++ name.now ++ codes " " ++ number.now) }
{
    joined(alloc, &[deed, name, b" ".as_slice(), number])
}

fn destroyed_text(
    alloc: Global,
    number: u32,
    day: u32,
    schedule: Schedule,
) -> Result<Vec<u8>, AllocError>
    requires day { IsDay day }
    requires range { IsInRange schedule }
    ensures { IfOk result (λ v. v.items ≡ destroyed_text_of number day schedule) }
{
    let number = number.to_string(alloc)?;
    let day = day_text(alloc, day)?;
    let schedule = schedule_text(alloc, schedule)?;
    joined(
        alloc,
        &[
            b"destroyed ".as_slice(),
            number.as_bytes(),
            b" as due by ".as_slice(),
            day.as_slice(),
            b" (".as_slice(),
            schedule.as_slice(),
            b")".as_slice(),
        ],
    )
}

fn refiled_text(alloc: Global, number: u32, path: &[u8]) -> Result<Vec<u8>, AllocError>
    ensures { IfOk result (λ v. v.items ≡ refiled_text_of number path.now) }
{
    let number = number.to_string(alloc)?;
    refiled_pieces(alloc, number.as_bytes(), path)
}

fn refiled_pieces<'a>(
    alloc: Global,
    number: &'a [u8],
    path: &'a [u8],
) -> Result<Vec<u8>, AllocError>
    ensures { IfOk result
        (λ v. v.items ≡ codes "refiled " ++ number.now ++ codes " to " ++ path.now) }
{
    joined(
        alloc,
        &[b"refiled ".as_slice(), number, b" to ".as_slice(), path],
    )
}

/// A text after its length in octets, as `13:Tax documents`.
fn counted_text(alloc: Global, text: &[u8]) -> Result<Vec<u8>, AllocError>
    ensures { IfOk result (λ v. v.items ≡ counted_text_of text.now) }
{
    let length = text.len().to_string(alloc)?;
    counted_pieces(alloc, length.as_bytes(), text)
}

fn counted_pieces<'a>(
    alloc: Global,
    length: &'a [u8],
    text: &'a [u8],
) -> Result<Vec<u8>, AllocError>
    ensures { IfOk result (λ v. v.items ≡ length.now ++ codes ":" ++ text.now) }
{
    joined(alloc, &[length, b":".as_slice(), text])
}

fn titled_text(
    alloc: Global,
    path: &[u8],
    title: &[u8],
    basis: &[u8],
) -> Result<Vec<u8>, AllocError>
    ensures { IfOk result (λ v. v.items ≡ titled_text_of path.now title.now basis.now) }
{
    let title = counted_text(alloc, title)?;
    let basis = counted_text(alloc, basis)?;
    titled_pieces(alloc, path, title.as_slice(), basis.as_slice())
}

fn titled_pieces<'a>(
    alloc: Global,
    path: &'a [u8],
    title: &'a [u8],
    basis: &'a [u8],
) -> Result<Vec<u8>, AllocError>
    ensures { IfOk result (λ v. v.items ≡ codes "titled " ++ path.now ++ codes " " ++
        title.now ++ codes " " ++ basis.now) }
{
    joined(
        alloc,
        &[
            b"titled ".as_slice(),
            path,
            b" ".as_slice(),
            title,
            b" ".as_slice(),
            basis,
        ],
    )
}

fn added_text<'a>(alloc: Global, path: &'a [u8]) -> Result<Vec<u8>, AllocError>
    ensures { IfOk result (λ v. v.items ≡ codes "added class " ++ path.now) }
{
    joined(alloc, &[b"added class ".as_slice(), path])
}

/// A word, and a plan in parentheses.
fn with_plan(alloc: Global, deed: &[u8], plan: &Listing<'_>) -> Result<Vec<u8>, AllocError>
    requires { HasSchedules (listing_view plan.now) }
    ensures { IfOk result
        (λ v. v.items ≡ deed.now ++ codes "(" ++ plan_text_of (listing_view plan.now) ++ codes ")") }
{
    let plan = plan_text(alloc, plan)?;
    plan_pieces(alloc, deed, plan.as_slice())
}

fn plan_pieces<'a>(alloc: Global, deed: &'a [u8], plan: &'a [u8]) -> Result<Vec<u8>, AllocError>
    ensures { IfOk result (λ v. v.items ≡ deed.now ++ codes "(" ++ plan.now ++ codes ")") }
{
    joined(alloc, &[deed, b"(".as_slice(), plan, b")".as_slice()])
}

fn message_text(alloc: Global, number: u32, seal: &Seal) -> Result<Vec<u8>, AllocError>
    ensures { IfOk result (λ v. v.items ≡ codes "found message " ++ decimal number ++ codes " " ++
        seal_text_of (seal_view seal.now)) }
{
    let number = number.to_string(alloc)?;
    let seal = seal_text(alloc, seal)?;
    joined(
        alloc,
        &[
            b"found message ".as_slice(),
            number.as_bytes(),
            b" ".as_slice(),
            seal.as_slice(),
        ],
    )
}

fn record_pieces<'a>(
    alloc: Global,
    number: &'a [u8],
    message: &'a [u8],
    path: &'a [u8],
    day: &'a [u8],
    state: &'a [u8],
) -> Result<Vec<u8>, AllocError>
    ensures { IfOk result (λ v. v.items ≡ codes "found record " ++ (number.now ++
        codes " of message " ++ message.now ++ codes " in " ++ path.now ++ codes " on " ++
        day.now ++ codes " " ++ state.now)) }
{
    joined(
        alloc,
        &[
            b"found record ".as_slice(),
            number,
            b" of message ".as_slice(),
            message,
            b" in ".as_slice(),
            path,
            b" on ".as_slice(),
            day,
            b" ".as_slice(),
            state,
        ],
    )
}

fn record_text(
    alloc: Global,
    number: u32,
    message: u32,
    path: &[u8],
    day: u32,
    destroyed: bool,
) -> Result<Vec<u8>, AllocError>
    requires { IsDay day }
    ensures { IfOk result (λ v. v.items ≡ codes "found record " ++
        record_text_of (record {
          number = number;
          message = message;
          path = path.now;
          day = day;
          destroyed = destroyed;
        })) }
{
    let number = number.to_string(alloc)?;
    let message = message.to_string(alloc)?;
    let day = day_text(alloc, day)?;
    record_pieces(
        alloc,
        number.as_bytes(),
        message.as_bytes(),
        path,
        day.as_slice(),
        state_word(destroyed),
    )
}

/// The text of a deed, which begins with a word of its own. The only refusal is no memory.
pub(crate) fn deed_text(alloc: Global, deed: &Deed<'_>) -> Result<Vec<u8>, AllocError>
    requires { IsSpelledDeed (deed_view deed.now) }
    ensures { IfOk result (λ v. v.items ≡ deed_text_of (deed_view deed.now)) }
{
    match deed {
        Deed::Captured {
            first,
            seal,
            day,
            filing,
            paths,
        } => captured_text(alloc, *first, seal, *day, filing, paths.as_slice()),
        Deed::Held { name, number } => hold_text(alloc, b"held ", name, *number),
        Deed::Released { name, number } => hold_text(alloc, b"released ", name, *number),
        Deed::Destroyed {
            number,
            day,
            schedule,
        } => destroyed_text(alloc, *number, *day, *schedule),
        Deed::Refiled { number, path } => refiled_text(alloc, *number, path),
        Deed::ClassAdded { path } => added_text(alloc, path),
        Deed::PlanReplaced(plan) => with_plan(alloc, b"replaced plan ", plan),
        Deed::Titled { path, title, basis } => titled_text(alloc, path, title, basis),
        Deed::ReasonsRequired => Vec::from_slice(alloc, b"made reasons required"),
        Deed::ReasonsOptional => Vec::from_slice(alloc, b"made reasons optional"),
        Deed::FindingsAccepted => Vec::from_slice(alloc, b"accepted findings"),
        Deed::FoundPlan(plan) => with_plan(alloc, b"found plan ", plan),
        Deed::FoundMessage { number, seal } => message_text(alloc, *number, seal),
        Deed::FoundRecord {
            number,
            message,
            path,
            day,
            destroyed,
        } => record_text(alloc, *number, *message, path, *day, *destroyed),
        Deed::FoundHold { name, number } => hold_text(alloc, b"found hold ", name, *number),
    }
}
