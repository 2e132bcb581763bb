//! An index of the holds of a sealed archive, so that no deed compares all of them.

ghost use Rattle.std.specs.Prelude.{◌≡◌, not, true, [], Some, filter, option_map, slice_get, IfSome, OnOk};
ghost use Rattle.record_judge.specs.Counts.{tally};
ghost use Rattle.record_judge.specs.Holds.{IsHoldIndex, IsHoldNoted, is_hold_of};

use crate::counts::Counts;
use crate::hold_counts::{HoldCounts, HoldKey};
use crate::places::Places;
use crate::sealed::NamedHold;
use std::alloc::{AllocError, Global};

/// How many holds each record has, how many of each name, and where the last of these may stand.
#[derive(Drop)]
pub(crate) struct HoldIndex {
    pub(crate) records: Counts,
    pub(crate) names: HoldCounts,
    places: Places<HoldKey>,
}

impl HoldIndex {
    /// The index of no holds.
    pub(crate) fn new(alloc: Global) -> HoldIndex
        ensures { IsHoldIndex result [] }
    {
        HoldIndex {
            records: Counts::new(alloc),
            names: HoldCounts::new(alloc),
            places: Places::new(alloc),
        }
    }

    /// Notes a hold that comes behind the others, by two copies of its key.
    pub(crate) fn note(&mut self, key: HoldKey, copy: HoldKey) -> Result<(), AllocError>
        ensures { OnOk result (IsHoldNoted key self.old self.new) }
    {
        self.places.note(copy)?;
        self.records.add(key.1, 1)?;
        self.names.add(key)
    }
}

fn is_there(hold: &NamedHold, name: &[u8], number: u32) -> bool
    ensures { result ≡ is_hold_of name.now number hold.now }
{
    hold.name.as_slice() == name && hold.number == number
}

/// The guessed place, where the hold is there.
fn place_of(rows: &[NamedHold], guess: Option<usize>, name: &[u8], number: u32) -> Option<usize>
    ensures { IfSome result
        (λ p. option_map (is_hold_of name.now number) (slice_get rows.now p) ≡ Some true) }
{
    let place = guess?;
    if place < rows.len() && is_there(&rows[place], name, number) {
        Some(place)
    } else {
        None
    }
}

/// Forgets the places of all holds of a name on a record.
fn forget_all(rows: &[NamedHold], places: &mut Places<HoldKey>, name: &[u8], number: u32) {
    for later in 0..rows.len() {
        let place = rows.len() - 1 - later;
        if is_there(&rows[place], name, number) {
            places.forget(place);
        }
    }
}

/// Removes the holds of a name on a record, of which there are `count`. It compares all holds only where there are more than
/// one.
#[tactic(auto, using(crate::proofs::RemovalLemmas::within))]
fn remove_rows(
    rows: &mut Vec<NamedHold>,
    places: &mut Places<HoldKey>,
    guess: Option<usize>,
    count: u64,
    name: &[u8],
    number: u32,
)
    ensures { count ≡ tally (is_hold_of name.now number) rows.old.items →
        rows.new.items ≡ filter (λ h. not (is_hold_of name.now number h)) rows.old.items }
{
    if count == 0 {
        return;
    }
    if count == 1 {
        if let Some(place) = place_of(rows.as_slice(), guess, name, number) {
            places.forget(place);
            let _hold = rows.remove(place);
            return;
        }
    }
    forget_all(rows.as_slice(), places, name, number);
    rows.retain(|hold| !is_there(hold, name, number));
}

/// Removes the holds of a key.
pub(crate) fn remove_holds(rows: &mut Vec<NamedHold>, index: &mut HoldIndex, key: &HoldKey)
    ensures rows { IsHoldIndex index.old rows.old.items →
        rows.new.items ≡ filter (λ h. not (is_hold_of key.now.0.items key.now.1 h)) rows.old.items }
    ensures index { IsHoldIndex index.old rows.old.items → IsHoldIndex index.new rows.new.items }
{
    let count = index.names.count(key);
    let guess = index.places.guess(key);
    index.records.take(key.1, count);
    index.names.forget(key);
    remove_rows(
        rows,
        &mut index.places,
        guess,
        count,
        key.0.as_slice(),
        key.1,
    );
}
