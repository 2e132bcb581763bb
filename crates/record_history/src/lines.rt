//! The line of an event.

ghost use Rattle.std.specs.Prelude.{◌≡◌, ◌++◌, IfOk, OnOk};
ghost use Rattle.record_history.specs.Lines.{line_of, notes_text, reason_text, word};
ghost use Rattle.record_history.specs.Spelled.{IsSpelled};
ghost use Rattle.record_history.specs.Views.{event_view};

use crate::dates::moment_text;
use crate::deeds::deed_text;
use crate::events::Event;
use crate::texts::ROOM;
use std::alloc::{AllocError, Global};

/// The last moment that a line can have, 9999-12-31T23:59:59Z, in seconds since 1970-01-01T00:00:00Z.
pub const LAST_MOMENT: u64 = 253_402_300_799;

/// The last day that a line can have, 9999-12-31, counted from 1970-01-01.
pub const LAST_DAY: u32 = 2_932_896;

/// Writes a space and a word.
fn push_word(line: &mut Vec<u8>, octets: &[u8]) -> Result<(), AllocError>
    ensures { OnOk result (line.new.items ≡ line.old.items ++ word octets.now) }
{
    line.push(b' ')?;
    line.extend_from_slice(octets)
}

/// Writes the notes, where there are any.
fn push_notes(line: &mut Vec<u8>, notes: &[u8]) -> Result<(), AllocError>
    ensures { OnOk result (line.new.items ≡ line.old.items ++ notes_text notes.now) }
{
    if notes.is_empty() {
        return Ok(());
    }
    push_word(line, notes)
}

/// Writes the reason, where there is one.
fn push_reason(line: &mut Vec<u8>, reason: &[u8]) -> Result<(), AllocError>
    ensures { OnOk result (line.new.items ≡ line.old.items ++ reason_text reason.now) }
{
    if reason.is_empty() {
        return Ok(());
    }
    line.extend_from_slice(b" : ")?;
    line.extend_from_slice(reason)
}

/// The line of the event with this number, as `17 2031-01-01T09:30:00Z ann held audit 1 : order 12/3`.
///
/// The caller gives a moment up to [`LAST_MOMENT`], days up to [`LAST_DAY`], and schedules whose counts are in range. The
/// only refusal is no memory (99).
pub fn event_line(alloc: Global, number: u64, event: &Event<'_>) -> Result<Vec<u8>, AllocError>
    requires { IsSpelled (event_view event.now) }
    ensures { IfOk result (λ v. v.items ≡ line_of number (event_view event.now)) }
{
    let moment = moment_text(alloc, event.moment)?;
    let deed = deed_text(alloc, &event.deed)?;
    let number = number.to_string(alloc)?;
    let mut line = Vec::with_capacity(alloc, ROOM)?;
    line.extend_from_slice(number.as_bytes())?;
    push_word(&mut line, moment.as_slice())?;
    push_word(&mut line, event.who)?;
    push_word(&mut line, deed.as_slice())?;
    push_notes(&mut line, event.notes)?;
    push_reason(&mut line, event.reason)?;
    Ok(line)
}
