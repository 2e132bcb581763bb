//! What is done with new messages.

ghost use Rattle.std.specs.Prelude.{◌≡◌, ◌∷◌, [], ℕ, Bool, List, None, map, string_bytes, true, IfOk, IfErr};
ghost use Rattle.mail_intake.specs.Calls.{Call, Makes, cause_of, is_done};
ghost use Rattle.mail_intake.specs.Fates.{AreThoseOf, Ending, EndsAs, Fate, course, last_course, name_of, outcome_for, outcome_of, stays, whole_course};
ghost use Rattle.mail_intake.specs.Folders.{Folders, IsEndIn, IsFateIn, OnlyMakes, left_by};
ghost use Rattle.mail_intake.specs.Intakes.{IsIntake, Passes};
ghost use Rattle.mail_intake.specs.Order.{AreInOrder, AreSomeOf, handed_over};
ghost use Rattle.mail_intake.specs.Telling.{Memory as Told, memory_view};

use crate::mailroom::{Mailroom, Refusal};
use crate::memory::Memory;
use crate::reason::Reason;
use crate::tally::{Outcome, Tally};

/// Why an intake ended.
#[derive(Drop)]
pub enum End<F> {
    /// Each message that was listed is taken or stays.
    Done,
    /// Nothing more could be captured, from this message on.
    NotCaptured(F),
    /// A message was captured or discarded, and could not be moved: the next intake would capture it again.
    NotMoved(F),
    /// The moves may not last over a power cut.
    NotSettled(F),
}

/// What became of the new messages of a Maildir.
#[derive(Drop)]
pub struct Taking<F> {
    pub tally: Tally,
    /// How many more have no name.
    pub nameless: usize,
    pub end: End<F>,
}

/// What is counted of a message that stays.
fn outcome_for(reason: &Reason) -> Outcome
    ensures { result ≡ outcome_for (cause_of reason.now) }
{
    match reason {
        Reason::Unfit(_) => Outcome::Unfit,
        Reason::NoMemory | Reason::GivenUp(_) => Outcome::GivenUp,
    }
}

/// Leaves a message where it is. It is told why, unless that was told on this day.
fn leave<M: Mailroom>(
    room: &mut M,
    memory: &Memory,
    day: u64,
    name: &str,
    reason: Reason,
) -> Outcome
    ensures calls { OnlyMakes M.made M.has room.old room.new
        (stays (memory_view memory.now) day name.now (cause_of reason)) }
    ensures outcome { result ≡ outcome_for (cause_of reason) }
{
    let outcome = outcome_for(&reason);
    if memory.is_to_be_told(name.as_bytes(), reason.words().as_bytes(), day) {
        room.tell(name, &reason);
    }
    room.remember(name, reason);
    outcome
}

/// Reads a message, hands it to the archive, and moves it once it is captured.
fn take_one<M: Mailroom>(
    room: &mut M,
    memory: &Memory,
    day: u64,
    name: &str,
) -> Result<Outcome, End<M::Fault>>
    ensures taken { IfOk result (λ outcome. (x : Fate) × (name_of x ≡ name.now)
        × (outcome_of x ≡ outcome)
        × Makes M.made room.old room.new (course (memory_view memory.now) day x)
        × ((f : Folders) → M.has room.old f → IsFateIn f x × M.has room.new (left_by x f))) }
    ensures ended { IfErr result (λ e. (x : Ending) × EndsAs x true e
        × AreThoseOf (name.now ∷ []) [] x
        × Makes M.made room.old room.new (last_course (memory_view memory.now) day x)
        × ((f : Folders) → M.has room.old f → IsEndIn f x × M.has room.new f)) }
{
    let octets = match room.read(name) {
        Ok(octets) => octets,
        Err(reason) => return Ok(leave(room, memory, day, name, reason)),
    };
    match room.capture(name, octets) {
        Ok(_) => match room.file_away(name) {
            Ok(()) => Ok(Outcome::Filed),
            Err(fault) => Err(End::NotMoved(fault)),
        },
        Err(Refusal::Stays(reason)) => Ok(leave(room, memory, day, name, reason)),
        Err(Refusal::Ends(fault)) => Err(End::NotCaptured(fault)),
    }
}

/// Takes messages, one after the other, up to one at which an intake ends.
fn take_each<M: Mailroom>(
    room: &mut M,
    memory: &Memory,
    day: u64,
    names: &[String],
    tally: &mut Tally,
) -> End<M::Fault>
    requires { tally.old ≡ record { taken = 0; unfit = 0; given_up = 0 } }
    ensures { (ending : Ending) × EndsAs ending true result
        × Passes M.made M.has (memory_view memory.now) day room.old room.new
        (map string_bytes names.now) ending tally.new }
{
    for name in names {
        match take_one(room, memory, day, name.as_str()) {
            Ok(outcome) => tally.add(outcome),
            Err(end) => return end,
        }
    }
    End::Done
}

/// How an intake ended, once its moves were to be made to last.
fn settled<F: Drop>(end: End<F>, settled: Result<(), F>) -> End<F>
    ensures { (ending : Ending) → EndsAs ending true end
        → EndsAs ending (is_done settled) result }
{
    match (end, settled) {
        (End::Done, Err(fault)) => End::NotSettled(fault),
        (end, _) => end,
    }
}

/// Takes the new messages of a Maildir, in the order of the listing, on a day counted from 1970-01-01.
///
/// Each message is read, handed to the archive, and moved right after that has captured or discarded it. One that cannot be
/// read, or that is refused, stays, and is told with the reason, unless `memory` has it that this was told on this day. The
/// others are taken all the same. The intake ends at a message with which the archive can capture nothing more, or that
/// is captured and cannot be moved.
///
/// An `Err` is that of the listing, and no message is touched then.
pub fn take_in<M: Mailroom>(
    room: &mut M,
    memory: &Memory,
    day: u64,
) -> Result<Taking<M::Fault>, M::Fault>
    ensures { IfOk result (λ done.
        IsIntake M.made M.has (memory_view memory.now) day room.old room.new done) }
{
    let listing = match room.list() {
        Ok(listing) => listing,
        Err(fault) => return Err(fault),
    };
    let mut tally = Tally::none();
    let end = take_each(room, memory, day, listing.names.as_slice(), &mut tally);
    let last = room.settle();
    Ok(Taking {
        tally,
        nameless: listing.nameless,
        end: settled(end, last),
    })
}

/// In the calls of an intake, a move comes right after its message was answered as captured or discarded, a capture right
/// after its octets were read, and what is told right after it was found. The archive is handed each message at most once,
/// and none that was not listed, in the order of the listing.
pub fn calls_are_in_order()
    ensures { (memory : Told) (day : ℕ) (names : List (List ℕ)) (fates : List Fate)
        (ending : Ending) (is_settled : Bool) → AreThoseOf names fates ending
        → let calls = whole_course memory day names fates ending is_settled in
        AreInOrder None calls × AreSomeOf (handed_over calls) names }
{}
