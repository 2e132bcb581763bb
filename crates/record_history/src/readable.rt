//! Which events are those that archives note: names, paths, sums and what people write are each as they have to be.

ghost use Rattle.std.specs.Prelude.{◌≡◌, ◌↔◌, All, IsTrue, IfSome, map, option_map};
ghost use Rattle.std.specs.List.{list_all, AllByRecursion};
ghost use Rattle.record_history.specs.Readable.{AreNotes, IsFiling, IsListing, IsNumber, IsPathText, IsReadable, IsReadableDeed, IsReason, IsSeal, IsSum, is_hex_digit, is_path_octet, is_reason_octet};
ghost use Rattle.record_history.specs.Spelled.{HasSchedules, IsSpelled, IsSpelledDeed};
ghost use Rattle.record_history.specs.Views.{deed_view, event_view, filing_view, listing_view, seal_view};

use crate::events::{Deed, Event, Filing, Listing, Seal};
use class_paths::SLASH;
use class_plan::Schedule;
use session_words::is_name;

/// How many hexadecimal digits a sum has.
const SUM_DIGITS: usize = 64;

/// The most octets in what people write: a reason, a title or a legal basis.
const MAX_REASON: usize = 500;

/// The greatest number that a record can have.
const LAST_NUMBER: u32 = 4_294_967_295;

/// Whether all octets are those of paths: small letters, digits, `-` and `/`.
fn are_path_octets(text: &[u8]) -> bool
    ensures { result ≡ list_all is_path_octet text.now }
{
    text.iter().all(|octet| {
        octet.is_ascii_lowercase() || octet.is_ascii_digit() || *octet == b'-' || *octet == SLASH
    })
}

/// Whether all octets are hexadecimal digits, as they are written.
fn are_hex_digits(text: &[u8]) -> bool
    ensures { result ≡ list_all is_hex_digit text.now }
{
    text.iter().all(|octet| octet.is_ascii_digit() || matches!(*octet, b'a'..=b'f'))
}

/// Whether no octet is a control.
fn has_no_control(text: &[u8]) -> bool
    ensures { result ≡ list_all is_reason_octet text.now }
{
    text.iter().all(|octet| !octet.is_ascii_control())
}

/// Whether a text is one octet of paths or more.
fn is_path_text(text: &[u8]) -> bool
    ensures { IsTrue result ↔ IsPathText text.now }
{
    !text.is_empty() && are_path_octets(text)
}

/// Whether a text is 64 hexadecimal digits.
fn is_sum(text: &[u8]) -> bool
    ensures { IsTrue result ↔ IsSum text.now }
{
    text.len() == SUM_DIGITS && are_hex_digits(text)
}

/// Whether a text is at most 500 octets without a control.
fn is_reason(text: &[u8]) -> bool
    ensures { IsTrue result ↔ IsReason text.now }
{
    text.len() <= MAX_REASON && has_no_control(text)
}

/// Whether notes are a name that doesn't begin as a reason does, or none.
fn are_notes(notes: &[u8]) -> bool
    ensures { IsTrue result ↔ AreNotes notes.now }
{
    match notes {
        [] => true,
        [first, ..] => *first != b':' && is_name(notes),
    }
}

/// Whether a number is at most the greatest that a record can have.
fn is_number(number: u32) -> bool
    ensures { IsTrue result ↔ IsNumber number }
{
    number <= LAST_NUMBER
}

fn is_seal(seal: &Seal) -> bool
    ensures { IsTrue result ↔ IsSeal (seal_view seal.now) }
{
    let _octets = seal.octets;
    is_sum(seal.sum.as_slice())
}

fn is_filing(filing: &Option<Filing<'_>>) -> bool
    ensures { IsTrue result ↔ IfSome (option_map filing_view filing.now) IsFiling }
{
    match filing {
        Some(filing) => is_name(filing.officer) && is_sum(filing.rules),
        None => true,
    }
}

fn are_path_texts(paths: &[&[u8]]) -> bool
    ensures { IsTrue result ↔ AllByRecursion IsPathText (map (λ p. p.now) paths.now) }
{
    paths.iter().all(|path| is_path_text(path))
}

/// Whether the path of each class is one octet of paths or more.
fn have_path_texts(classes: &[(&[u8], bool, Option<Schedule>)]) -> bool
    ensures { IsTrue result ↔ All (λ c. IsPathText c.0.now) classes.now }
{
    classes.iter().all(|class| is_path_text(class.0))
}

fn is_listing(plan: &Listing<'_>) -> bool
    requires { HasSchedules (listing_view plan.now) }
    ensures { IsTrue result ↔ IsListing (listing_view plan.now) }
{
    have_path_texts(plan.classes.as_slice())
}

/// Whether a deed is one that archives note. The caller gives one that can be spelled.
fn is_readable_deed(deed: &Deed<'_>) -> bool
    requires { IsSpelledDeed (deed_view deed.now) }
    ensures { IsTrue result ↔ IsReadableDeed (deed_view deed.now) }
{
    match deed {
        Deed::Captured {
            first,
            seal,
            filing,
            paths,
            ..
        } => {
            is_number(*first)
                && is_seal(seal)
                && is_filing(filing)
                && are_path_texts(paths.as_slice())
        }
        Deed::Held { name, number }
        | Deed::Released { name, number }
        | Deed::FoundHold { name, number } => is_number(*number) && is_name(name),
        Deed::Destroyed { number, .. } => is_number(*number),
        Deed::Refiled { number, path } => is_number(*number) && is_path_text(path),
        Deed::ClassAdded { path } => is_path_text(path),
        Deed::PlanReplaced(plan) | Deed::FoundPlan(plan) => is_listing(plan),
        Deed::Titled { path, title, basis } => {
            is_path_text(path) && is_reason(title) && is_reason(basis)
        }
        Deed::ReasonsRequired | Deed::ReasonsOptional | Deed::FindingsAccepted => true,
        Deed::FoundMessage { number, seal } => is_number(*number) && is_seal(seal),
        Deed::FoundRecord {
            number,
            message,
            path,
            ..
        } => is_number(*number) && is_number(*message) && is_path_text(path),
    }
}

/// Whether an event is one that archives note. The caller gives one that can be spelled.
pub(crate) fn is_readable(event: &Event<'_>) -> bool
    requires { IsSpelled (event_view event.now) }
    ensures { IsTrue result ↔ IsReadable (event_view event.now) }
{
    is_name(event.who)
        && is_readable_deed(&event.deed)
        && are_notes(event.notes)
        && is_reason(event.reason)
}
