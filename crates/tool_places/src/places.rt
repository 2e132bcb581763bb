//! Lines and columns of many offsets, in one walk over the text.

ghost use Rattle.std.specs.Prelude.{◌≡◌, ◌≤◌, ◌<◌, ◌^◌, length, map, IfOk};
ghost use Rattle.tool_places.specs.Places.{past as past_of, place_at};

use std::alloc::{AllocError, Global};
use tool_texts::Place;

/// An offset of a text, and its place.
#[derive(Clone, Copy)]
pub(crate) struct Stop {
    pub(crate) offset: usize,
    pub(crate) place: Place,
}

/// The place after an octet.
fn past(place: Place, octet: u8) -> Place
    requires line { place.line < 2 ^ 63 }
    requires column { place.column < 2 ^ 63 }
    ensures { result ≡ past_of place octet }
{
    if octet == b'\n' {
        Place {
            line: place.line + 1,
            column: 1,
        }
    } else {
        Place {
            line: place.line,
            column: place.column + 1,
        }
    }
}

/// The place of an offset, by a walk from a stop that does not come after it.
pub(crate) fn walked(text: &[u8], from: Stop, offset: usize) -> Place
    requires at { from.place ≡ place_at text.now from.offset }
    requires order { from.offset ≤ offset }
    requires within { offset ≤ length text.now }
    ensures { result ≡ place_at text.now offset }
{
    let mut place = from.place;
    for index in from.offset..offset {
        place = past(place, text[index]);
    }
    place
}

/// The stop at an offset, by a walk from the last stop, or from the beginning where that stop comes after the offset.
pub(crate) fn next_stop(text: &[u8], last: Stop, offset: usize) -> Stop
    requires at { last.place ≡ place_at text.now last.offset }
    requires within { offset ≤ length text.now }
    ensures place { result.place ≡ place_at text.now offset }
    ensures offset { result.offset ≡ offset }
{
    let from = if last.offset <= offset {
        last
    } else {
        beginning()
    };
    Stop {
        offset,
        place: walked(text, from, offset),
    }
}

/// The beginning of a text.
pub(crate) fn beginning() -> Stop
    ensures offset { result.offset ≡ 0 }
    ensures line { result.place.line ≡ 1 }
    ensures column { result.place.column ≡ 1 }
{
    Stop {
        offset: 0,
        place: Place { line: 1, column: 1 },
    }
}

/// The lines and columns of offsets in a text, as `place_of` gives each. An offset past the end of the text counts as
/// its end. Where the offsets rise, the time is linear in the text and the offsets. The only error is out of memory.
pub fn places_of(alloc: Global, text: &[u8], offsets: &[usize]) -> Result<Vec<Place>, AllocError>
    ensures { IfOk result (λ v. v.items ≡ map (place_at text.now) offsets.now) }
{
    let mut places = Vec::with_capacity(alloc, offsets.len())?;
    let mut stop = beginning();
    for offset in offsets {
        stop = next_stop(text, stop, (*offset).min(text.len()));
        places.push(stop.place)?;
    }
    Ok(places)
}
