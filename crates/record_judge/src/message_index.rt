//! An index of the messages of a sealed archive, so that no deed compares all of them.

ghost use Rattle.std.specs.Prelude.{◌≡◌, ◌==◌, not, true, [], Some, filter, if◌then◌else◌, option_map, slice_get, IfSome, OnOk};
ghost use Rattle.record_judge.specs.Counts.{tally};
ghost use Rattle.record_judge.specs.Indexes.{FollowsMessages, IsMessageIndex, IsMessageNoted, is_message};

use crate::counts::Counts;
use crate::places::Places;
use crate::sealed::SealedMessage;
use std::alloc::{AllocError, Global};

/// How many messages have each number, and where they may stand.
#[derive(Drop)]
pub(crate) struct MessageIndex {
    pub(crate) numbers: Counts,
    places: Places<u32>,
}

impl MessageIndex {
    /// The index of no messages.
    pub(crate) fn new(alloc: Global) -> MessageIndex
        ensures { IsMessageIndex result [] }
    {
        MessageIndex {
            numbers: Counts::new(alloc),
            places: Places::new(alloc),
        }
    }

    /// Notes a message that comes behind the others.
    pub(crate) fn note(&mut self, number: u32) -> Result<(), AllocError>
        ensures { OnOk result (IsMessageNoted number self.old self.new) }
    {
        self.places.note(number)?;
        self.numbers.add(number, 1)
    }
}

/// The guessed place, where the message with the number is there.
fn place_of(rows: &[SealedMessage], guess: Option<usize>, number: u32) -> Option<usize>
    ensures { IfSome result
        (λ p. option_map (is_message number) (slice_get rows.now p) ≡ Some true) }
{
    let place = guess?;
    if place < rows.len() && rows[place].number == number {
        Some(place)
    } else {
        None
    }
}

/// Forgets the places of all messages with a number.
fn forget_all(rows: &[SealedMessage], places: &mut Places<u32>, number: u32) {
    for later in 0..rows.len() {
        let place = rows.len() - 1 - later;
        if rows[place].number == number {
            places.forget(place);
        }
    }
}

/// Removes the messages with a number, of which there are `count`. It compares all messages only where there are more than one.
#[tactic(auto, using(crate::proofs::RemovalLemmas::within))]
fn remove_rows(rows: &mut Vec<SealedMessage>, places: &mut Places<u32>, count: u64, number: u32)
    ensures { count ≡ tally (is_message number) rows.old.items →
        rows.new.items ≡ filter (λ m. not (m.number == number)) rows.old.items }
{
    if count == 0 {
        return;
    }
    if count == 1 {
        if let Some(place) = place_of(rows.as_slice(), places.guess(&number), number) {
            places.forget(place);
            let _message = rows.remove(place);
            return;
        }
    }
    forget_all(rows.as_slice(), places, number);
    rows.retain(|message| message.number != number);
}

/// Removes the messages with a number.
fn remove_message(rows: &mut Vec<SealedMessage>, index: &mut MessageIndex, number: u32)
    ensures rows { IsMessageIndex index.old rows.old.items →
        rows.new.items ≡ filter (λ m. not (m.number == number)) rows.old.items }
    ensures index { FollowsMessages index.old rows.old.items index.new rows.new.items }
{
    let count = index.numbers.count(number);
    index.numbers.take(number, count);
    remove_rows(rows, &mut index.places, count, number);
}

/// Removes the messages with a number, unless they are shared.
pub(crate) fn leave_message(
    rows: &mut Vec<SealedMessage>,
    index: &mut MessageIndex,
    shared: bool,
    number: u32,
)
    ensures rows { IsMessageIndex index.old rows.old.items → rows.new.items ≡
        (if shared then rows.old.items else filter (λ m. not (m.number == number)) rows.old.items) }
    ensures index { FollowsMessages index.old rows.old.items index.new rows.new.items }
{
    if !shared {
        remove_message(rows, index, number);
    }
}
