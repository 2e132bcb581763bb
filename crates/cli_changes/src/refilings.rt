//! Which of the chosen records get another class, and what may be destroyed at once there.

ghost use Rattle.std.specs.Prelude.{◌≡◌};
ghost use Rattle.std.specs.Str.{bytes_eq};
ghost use Rattle.record_choice.specs.Entries.{entry_view};
ghost use Rattle.cli_changes.specs.Refilings.{fate_of as fate_meant, is_destroyable as may_be_destroyed, moves, why_not as why_it_stays};

use choice_words::TypedNumbers;
use class_plan::{Date, Schedule};
use cli_choice::is_single;
use cli_console::is_by;
use record_choice::destroys;
use record_store::RecordEntry;

/// What becomes of a record that is chosen for a class.
#[derive(Clone, Copy)]
pub enum Fate {
    /// It gets the class.
    Moves,
    /// It has the class already, or is destroyed, and its number is not typed by itself.
    PassedOver,
    /// It has the class already.
    IsThere,
    /// It is destroyed.
    IsDestroyed,
}

/// Whether two paths are the same.
fn is_same_path(one: &[u8], other: &[u8]) -> bool
    ensures { result ≡ bytes_eq one.now other.now }
{
    one == other
}

/// Whether a record gets a class: it is live, and in another one.
pub(crate) fn gets(entry: &RecordEntry, to: &[u8]) -> bool
    ensures { result ≡ moves to.now (entry_view entry.now) }
{
    !entry.destroyed && !is_same_path(entry.path.as_slice(), to)
}

/// Why a record does not get a class.
fn why_not(entry: &RecordEntry) -> Fate
    ensures { result ≡ why_it_stays (entry_view entry.now) }
{
    if entry.destroyed {
        Fate::IsDestroyed
    } else {
        Fate::IsThere
    }
}

/// What becomes of a record that is chosen for a class, by the numbers that are typed: one that is live and in another class gets
/// it. Another one is passed over, unless its number is typed by itself.
pub fn fate_of(entry: &RecordEntry, to: &[u8], typed: &[TypedNumbers]) -> Fate
    ensures { result ≡ fate_meant typed.now to.now (entry_view entry.now) }
{
    if gets(entry, to) {
        return Fate::Moves;
    }
    if is_single(typed, entry.number) {
        return why_not(entry);
    }
    Fate::PassedOver
}

/// Whether a live record with a due date may be destroyed by a day: it is due, its schedule destroys, and no hold keeps it.
pub fn is_destroyable(
    due: Option<Date>,
    schedule: Option<Schedule>,
    is_held: bool,
    day: Date,
) -> bool
    ensures { result ≡ may_be_destroyed due schedule is_held day }
{
    is_by(due, day) && destroys(schedule) && !is_held
}
