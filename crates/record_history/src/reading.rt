//! Lines that are read.

ghost use Rattle.std.specs.Prelude.{◌≡◌, IfOk};
ghost use Rattle.record_history.specs.Lines.{line_of};
ghost use Rattle.record_history.specs.OneReading.{ReadsEach};
ghost use Rattle.record_history.specs.Readable.{IsReadable};
ghost use Rattle.record_history.specs.Reading.{Gives, ending_at as ending_at_of, event_at as event_at_of, notes_at as notes_at_of, reason_at as reason_at_of};
ghost use Rattle.record_history.specs.Spelled.{IsSpelled};
ghost use Rattle.record_history.specs.Views.{event_view};

use crate::days::moment_of;
use crate::deed_readers::deed_at;
use crate::events::Event;
use crate::faults::LineFault;
use crate::lines::event_line;
use crate::readable::is_readable;
use crate::words::{strip, strip_if, wide_number_at, word};
use std::alloc::Global;

/// The reason, to the end of the line.
#[tactic(auto, unfolding(crate::specs::Reading::reason_at))]
fn reason_at(text: &[u8]) -> Result<&[u8], LineFault>
    ensures { Gives (λ r. r.now) result (reason_at_of text.now) }
{
    match text {
        [] => Ok(text),
        _ => strip(text, b" : "),
    }
}

fn notes_at(text: &[u8]) -> Result<(&[u8], &[u8]), LineFault>
    ensures { Gives (λ x. (x.0.now, x.1.now)) result (notes_at_of text.now) }
{
    match text {
        [] => Ok((text, text)),
        _ => {
            let rest = strip(text, b" ")?;
            let (notes, rest) = word(rest);
            let reason = reason_at(rest)?;
            Ok((notes, reason))
        }
    }
}

/// The notes and the reason.
#[tactic(auto, unfolding(crate::specs::Reading::ending_at))]
fn ending_at(text: &[u8]) -> Result<(&[u8], &[u8]), LineFault>
    ensures { Gives (λ x. (x.0.now, x.1.now)) result (ending_at_of text.now) }
{
    match strip_if(text, b" : ") {
        Some(reason) => Ok((&text[..0], reason)),
        None => notes_at(text),
    }
}

/// The number and the event of a line that [`read_line`] has read before.
///
/// What was read is not written again to be compared, so other octets may be read as an event too. Refused as by `read_line`.
#[tactic(auto, unfolding(crate::specs::Reading::event_at))]
pub fn read_line_again(alloc: Global, line: &[u8]) -> Result<(u64, Event<'_>), LineFault>
    ensures event { Gives (λ x. (x.0, event_view x.1)) result (event_at_of line.now) }
    ensures spelled { IfOk result (λ x. IsSpelled (event_view x.1)) }
{
    let (number, rest) = wide_number_at(line)?;
    let rest = strip(rest, b" ")?;
    let (moment, rest) = word(rest);
    let moment = moment_of(moment)?;
    let rest = strip(rest, b" ")?;
    let (who, rest) = word(rest);
    let rest = strip(rest, b" ")?;
    let (deed, rest) = deed_at(alloc, rest)?;
    let (notes, reason) = ending_at(rest)?;
    let event = Event {
        moment,
        who,
        deed,
        notes,
        reason,
    };
    Ok((number, event))
}

/// The number and the event of a line. The event borrows its texts from the line.
///
/// A line is read only where its event is one that archives note, and writing what was read gives the same octets again.
/// Refused with 99 (no memory), and else where the octets are no line of such an event.
pub fn read_line(alloc: Global, line: &[u8]) -> Result<(u64, Event<'_>), LineFault>
    ensures found { IfOk result (λ x. line.now ≡ line_of x.0 (event_view x.1)) }
    ensures readable { IfOk result (λ x. IsReadable (event_view x.1)) }
    ensures only { ReadsEach (λ x. (x.0, event_view x.1)) line.now result }
    ensures spelled { IfOk result (λ x. IsSpelled (event_view x.1)) }
{
    let (number, event) = read_line_again(alloc, line)?;
    if !is_readable(&event) {
        return Err(LineFault::NotALine);
    }
    let again = event_line(alloc, number, &event)?;
    if again.as_slice() != line {
        return Err(LineFault::NotALine);
    }
    Ok((number, event))
}
