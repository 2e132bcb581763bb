//! Which moment a message gets.

ghost use Rattle.std.specs.Prelude.{◌≡◌, IfOk, MatchOption, None, Some};
ghost use Rattle.mail_head.specs.Fields.{fields_of};
ghost use Rattle.mail_dates.specs.Dating.{behind_semicolon, body_called, by_date, by_last, by_received, dated, dated_by, is_called, judged};

use crate::moments::moment_of;
use mail_head::first_field;
use std::alloc::{AllocError, Global};

/// What gives the moment of a message.
#[derive(Clone, Copy)]
pub enum Dating {
    /// Its topmost `Received` field: the date behind the last semicolon.
    Received,
    /// Its first `Date` field.
    Date,
    /// A moment that is given, in seconds since 1970.
    At(u64),
}

/// The moment of a message, in seconds since 1970, or why it has none.
#[derive(Clone, Copy, Debug, PartialEq, Eq)]
pub enum Dated {
    Moment(u64),
    /// The field is missing.
    NoField,
    /// The field has no date that can be read, or one before 1970.
    NoDate,
    /// The moment is later than that of the clock.
    ToCome(u64),
}

/// Whether a field's name is `other` in any case of its letters.
fn is_called(name: &[u8], other: &[u8]) -> bool
    ensures { result ≡ is_called name.now other.now }
{
    name.eq_ignore_ascii_case(other)
}

/// The body of a message's first field of a name, in any case of its letters.
fn body_called<'a>(message: &'a [u8], name: &[u8]) -> Option<&'a [u8]>
    ensures { MatchOption result (body_called name.now (fields_of message.now) ≡ None)
        (λ body. body_called name.now (fields_of message.now) ≡ Some body.now) }
{
    let mut rest = message;
    while let Some(found) = first_field(rest) {
        if is_called(found.field.name(), name) {
            return Some(found.field.raw());
        }
        rest = found.after;
    }
    None
}

/// What stands behind the last semicolon of a text, if it has one.
#[tactic(auto, unfolding(crate::specs::Dating::behind_semicolon))]
fn behind_semicolon(text: &[u8]) -> Option<&[u8]>
    ensures { MatchOption result (behind_semicolon text.now ≡ None)
        (λ found. behind_semicolon text.now ≡ Some found.now) }
{
    let mut found = None;
    let mut rest = text;
    while let [octet, after @ ..] = rest {
        if *octet == b';' {
            found = Some(after);
        }
        rest = after;
    }
    found
}

/// A moment, where the clock shows `now`.
fn judged(moment: u64, now: u64) -> Dated
    ensures { result ≡ judged moment now }
{
    if moment <= now {
        Dated::Moment(moment)
    } else {
        Dated::ToCome(moment)
    }
}

/// The moment of a text, where the clock shows `now`.
fn dated_by(alloc: Global, text: &[u8], now: u64) -> Result<Dated, AllocError>
    ensures { IfOk result (λ d. d ≡ by_date (Some text.now) now) }
{
    match moment_of(alloc, text)? {
        Some(moment) => Ok(judged(moment, now)),
        None => Ok(Dated::NoDate),
    }
}

/// The moment that a message gets by its topmost `Received` field, where the clock shows `now`.
fn by_received(alloc: Global, message: &[u8], now: u64) -> Result<Dated, AllocError>
    ensures { IfOk result (λ d. d ≡ dated Dating.Received message.now now) }
{
    let Some(body) = body_called(message, b"received") else {
        return Ok(Dated::NoField);
    };
    match behind_semicolon(body) {
        Some(text) => dated_by(alloc, text, now),
        None => Ok(Dated::NoDate),
    }
}

/// The moment that a message gets by its first `Date` field, where the clock shows `now`.
fn by_date(alloc: Global, message: &[u8], now: u64) -> Result<Dated, AllocError>
    ensures { IfOk result (λ d. d ≡ dated Dating.Date message.now now) }
{
    match body_called(message, b"date") {
        Some(body) => dated_by(alloc, body, now),
        None => Ok(Dated::NoField),
    }
}

/// The moment that a message gets, where the clock shows `now`, in seconds since 1970. The one error is out of memory.
pub fn date_message(
    alloc: Global,
    message: &[u8],
    dating: Dating,
    now: u64,
) -> Result<Dated, AllocError>
    ensures { IfOk result (λ d. d ≡ dated dating message.now now) }
{
    match dating {
        Dating::Received => by_received(alloc, message, now),
        Dating::Date => by_date(alloc, message, now),
        Dating::At(moment) => Ok(judged(moment, now)),
    }
}
