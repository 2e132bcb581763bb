//! Which events are asked for.

ghost use Rattle.std.specs.Prelude.{◌≡◌, ◌/◌, int_le, pos};
ghost use Rattle.std.specs.List.{list_any};
ghost use Rattle.std.specs.Str.{bytes_eq};
ghost use Rattle.jiff.specs.Words.{epoch_day};
ghost use Rattle.record_history.specs.Views.{deed_view, event_view};
ghost use Rattle.cli_history.specs.Chosen.{any_meets, asks_for, asks_for_all, is_about as is_about_one, is_plan_found as is_found_plan};
ghost use Rattle.cli_history.specs.Chosen.{is_same_kind, is_there_after as is_one_there, kind_of, meets, subjects, where_asked};

use choice_words::TypedNumbers;
use class_plan::day_number;
use command_lines::archives::{DeedKind, HistoryAsked};
use jiff::civil::Date;
use record_history::{Deed, Event};

/// How many seconds a day has.
const DAY: u64 = 86_400;

/// The records that a deed is about, from the first to the last; none where it is about none. A message that is found is
/// about the record with its number.
pub fn records_of(deed: &Deed<'_>) -> Option<(u32, u32)>
    ensures { result ≡ subjects (deed_view deed.now) }
{
    match deed {
        Deed::Captured { first, paths, .. } => {
            let others = u32::try_from(paths.len().saturating_sub(1)).unwrap_or(u32::MAX);
            Some((*first, first.saturating_add(others)))
        }
        Deed::Held { number, .. }
        | Deed::Released { number, .. }
        | Deed::Refiled { number, .. }
        | Deed::Destroyed { number, .. }
        | Deed::FoundMessage { number, .. }
        | Deed::FoundRecord { number, .. }
        | Deed::FoundHold { number, .. } => Some((*number, *number)),
        Deed::ClassAdded { .. }
        | Deed::PlanReplaced(_)
        | Deed::Titled { .. }
        | Deed::ReasonsRequired
        | Deed::ReasonsOptional
        | Deed::FindingsAccepted
        | Deed::FoundPlan(_) => None,
    }
}

/// Whether a word means one of the numbers from a first to a last.
pub fn touches(typed: &TypedNumbers, first: u32, last: u32) -> bool
    ensures { result ≡ meets first last typed.now }
{
    match typed {
        TypedNumbers::One(number) => first <= *number && *number <= last,
        TypedNumbers::Range {
            first: low,
            last: high,
        } => *low <= last && first <= *high,
    }
}

/// Whether numbers that are typed have one from a first to a last.
pub fn any_touches(typed: &[TypedNumbers], first: u32, last: u32) -> bool
    ensures { result ≡ list_any (meets first last) typed.now }
{
    typed.iter().any(|numbers| touches(numbers, first, last))
}

/// Whether a deed is about a record of one of the numbers that are typed.
fn is_about_any(typed: &[TypedNumbers], deed: &Deed<'_>) -> bool
    ensures { result ≡ any_meets typed.now (subjects (deed_view deed.now)) }
{
    match records_of(deed) {
        Some((first, last)) => any_touches(typed, first, last),
        None => false,
    }
}

/// Whether a deed is about a record of one of the numbers that are typed, if there are any.
pub fn is_about(typed: &[TypedNumbers], deed: &Deed<'_>) -> bool
    ensures { result ≡ is_about_one typed.now (deed_view deed.now) }
{
    typed.is_empty() || is_about_any(typed, deed)
}

/// Whether a deed tells of a plan that was found.
fn is_plan_found(deed: &Deed<'_>) -> bool
    ensures { result ≡ is_found_plan (deed_view deed.now) }
{
    matches!(deed, Deed::FoundPlan(_))
}

/// Whether a record of the numbers that are typed is there after a deed, by whether one was there before it. A plan that is
/// found begins the archive anew.
pub fn is_there_after(typed: &[TypedNumbers], is_there: bool, deed: &Deed<'_>) -> bool
    ensures { result ≡ is_one_there typed.now is_there (deed_view deed.now) }
{
    !is_plan_found(deed) && (is_there || is_about_any(typed, deed))
}

/// Whether a moment is on a day or later, where one is asked for.
fn is_since(since: Option<Date>, moment: u64) -> bool
    ensures { result ≡ where_asked (λ day. int_le (epoch_day day) (pos (moment / 86400))) since }
{
    match since {
        Some(day) => i64::try_from(moment / DAY).is_ok_and(|number| day_number(day) <= number),
        None => true,
    }
}

/// Whether two names are the same.
fn is_same_name(name: &str, who: &[u8]) -> bool
    ensures { result ≡ bytes_eq name.now who.now }
{
    name.as_bytes() == who
}

/// Whether an event is that of a name, where one is asked for.
fn is_by(asked: &HistoryAsked<'_>, who: &[u8]) -> bool
    ensures { result ≡ where_asked (λ n. bytes_eq n.now who.now) asked.now.by }
{
    match asked.by {
        Some(name) => is_same_name(name, who),
        None => true,
    }
}

/// Whether a deed is of a kind.
fn is_of_kind(kind: DeedKind, deed: &Deed<'_>) -> bool
    ensures { result ≡ is_same_kind kind (kind_of (deed_view deed.now)) }
{
    match kind {
        DeedKind::Captured => matches!(deed, Deed::Captured { .. }),
        DeedKind::Held => matches!(deed, Deed::Held { .. }),
        DeedKind::Released => matches!(deed, Deed::Released { .. }),
        DeedKind::Refiled => matches!(deed, Deed::Refiled { .. }),
        DeedKind::Destroyed => matches!(deed, Deed::Destroyed { .. }),
        DeedKind::Added => matches!(deed, Deed::ClassAdded { .. }),
        DeedKind::Replaced => matches!(deed, Deed::PlanReplaced(_)),
        DeedKind::Titled => matches!(deed, Deed::Titled { .. }),
        DeedKind::Made => matches!(deed, Deed::ReasonsRequired | Deed::ReasonsOptional),
        DeedKind::Found => matches!(
            deed,
            Deed::FoundPlan(_)
                | Deed::FoundMessage { .. }
                | Deed::FoundRecord { .. }
                | Deed::FoundHold { .. }
        ),
        DeedKind::Accepted => matches!(deed, Deed::FindingsAccepted),
    }
}

/// Whether a deed is of a kind, where one is asked for.
fn is_of_kind_asked(kind: Option<DeedKind>, deed: &Deed<'_>) -> bool
    ensures { result ≡ where_asked (λ k. is_same_kind k (kind_of (deed_view deed.now))) kind }
{
    match kind {
        Some(kind) => is_of_kind(kind, deed),
        None => true,
    }
}

/// Whether an event is asked for, by whether a record of the numbers that are typed is there before it. A plan that is found is
/// about each record that is there before it, since it states the archive anew.
pub fn is_asked(asked: &HistoryAsked<'_>, is_there: bool, event: &Event<'_>) -> bool
    ensures { result ≡ asks_for asked.now is_there (event_view event.now) }
{
    is_since(asked.since, event.moment)
        && is_by(asked, event.who)
        && is_of_kind_asked(asked.kind, &event.deed)
        && (is_about(asked.numbers.as_slice(), &event.deed)
            || (is_there && is_plan_found(&event.deed)))
}

/// Whether each event is asked for, whatever it is.
pub fn is_for_all(asked: &HistoryAsked<'_>) -> bool
    ensures { result ≡ asks_for_all asked.now }
{
    asked.numbers.is_empty() && asked.since.is_none() && asked.by.is_none() && asked.kind.is_none()
}

/// The word of a deed.
pub fn word_of(deed: &Deed<'_>) -> &'static str {
    match deed {
        Deed::Captured { .. } => "captured",
        Deed::Held { .. } => "held",
        Deed::Released { .. } => "released",
        Deed::Refiled { .. } => "refiled",
        Deed::Destroyed { .. } => "destroyed",
        Deed::ClassAdded { .. } => "added",
        Deed::PlanReplaced(_) => "replaced",
        Deed::Titled { .. } => "titled",
        Deed::ReasonsRequired | Deed::ReasonsOptional => "made",
        Deed::FindingsAccepted => "accepted",
        Deed::FoundPlan(_)
        | Deed::FoundMessage { .. }
        | Deed::FoundRecord { .. }
        | Deed::FoundHold { .. } => "found",
    }
}
