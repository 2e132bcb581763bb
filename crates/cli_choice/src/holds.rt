//! On which of the chosen records a hold is placed, or ended.

ghost use Rattle.std.specs.Prelude.{◌≡◌};
ghost use Rattle.std.specs.List.{list_any};
ghost use Rattle.std.specs.Str.{bytes_eq};
ghost use Rattle.record_choice.specs.Entries.{entry_view};
ghost use Rattle.cli_choice.specs.Holds.{is_changed, is_meant};

use crate::typed::is_single;
use choice_words::TypedNumbers;
use record_choice::RecordEntry;

/// What is done with a hold.
#[derive(Clone, Copy)]
pub enum Change {
    /// It is placed on a record.
    Place,
    /// It ends.
    End,
}

/// Whether a hold of a name is among those of a record.
fn has_hold(holds: &[Vec<u8>], name: &[u8]) -> bool
    ensures { result ≡ list_any (λ n. bytes_eq n.items name.now) holds.now }
{
    holds.iter().any(|hold| hold.as_slice() == name)
}

/// Whether a change alters anything: the record is live, and the hold is not placed on it yet, or is to end.
fn is_changed(change: Change, name: &[u8], entry: &RecordEntry) -> bool
    ensures { result ≡ is_changed change name.now (entry_view entry.now) }
{
    let is_kept = has_hold(entry.holds.as_slice(), name);
    match change {
        Change::Place => !entry.destroyed && !is_kept,
        Change::End => !entry.destroyed && is_kept,
    }
}

/// Whether a hold of a name is to be placed on a chosen record, or ended. Where that alters nothing, the record is passed
/// over, unless its number is typed by itself: then the archive is to say why.
pub fn is_meant(change: Change, name: &[u8], typed: &[TypedNumbers], entry: &RecordEntry) -> bool
    ensures { result ≡ is_meant change name.now typed.now (entry_view entry.now) }
{
    is_single(typed, entry.number) || is_changed(change, name, entry)
}
