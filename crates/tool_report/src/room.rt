//! How much of a message a report says again beside its tests.

ghost use Rattle.std.specs.Prelude.{◌≡◌, ◌+◌, ◌-◌, ◌<◌, ◌≤◌, true, false};
ghost use Rattle.std.specs.Option.{SomeIff};
ghost use Rattle.tool_report.specs.Room.{octets_in, octets_at};

use sieve_evaluator::BorrowedField;

/// The most octets that a report says again.
const MOST: usize = 1_048_576;

/// How many octets a field counts besides those of its name and its value.
const FIELD: usize = 64;

/// How many octets of fields a report can still say beside its tests. Each field stands once in the list of the
/// message's fields. Beside a test fields are said again only as long as there is room, so that a report is never much
/// longer than the message and the scripts.
#[derive(Drop)]
pub struct Room {
    left: usize,
}

/// What is left after the field at a place; none where that is less than the field takes.
fn left_after(left: usize, fields: &[BorrowedField<'_>], place: usize) -> Option<usize>
    ensures { SomeIff result (octets_in fields.now place ≤ left)
        (left - octets_in fields.now place) }
{
    if place >= fields.len() {
        return Some(left);
    }
    let field = &fields[place];
    left.checked_sub(FIELD)?
        .checked_sub(field.name.len())?
        .checked_sub(field.value.len())
}

impl Room {
    /// The room of a whole report.
    pub fn new() -> Room
        ensures { result.left ≡ 1048576 }
    {
        Room { left: MOST }
    }

    /// Takes the room of the fields at these places, counted from 0. Where there is less, nothing is taken, and the
    /// answer is false.
    pub fn take(&mut self, fields: &[BorrowedField<'_>], places: &[usize]) -> bool
        ensures taken { result ≡ true →
            self.new.left + octets_at fields.now places.now ≡ self.old.left }
        ensures full { result ≡ false → self.old.left < octets_at fields.now places.now }
        ensures kept { result ≡ false → self.new ≡ self.old }
    {
        let mut left = self.left;
        for place in places {
            match left_after(left, fields, *place) {
                Some(after) => left = after,
                None => return false,
            }
        }
        self.left = left;
        true
    }
}
