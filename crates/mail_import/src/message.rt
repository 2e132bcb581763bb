//! What is done with a message of old mail.

ghost use Rattle.std.specs.Prelude.{◌≡◌, ◌∷◌, [], ℕ, List, OnErr, OnOk};
ghost use Rattle.record_history.specs.Replay.{seal};
ghost use Rattle.mail_import.specs.Calls as call;
ghost use Rattle.mail_import.specs.Calls.{Answer};
ghost use Rattle.mail_import.specs.Fates.{FirstRecords, Knows, decided, seal_in, why_of};
ghost use Rattle.mail_import.specs.Imports.{EndsAt, EndsBy, Takes};
ghost use Rattle.mail_import.specs.Findings.{Agrees, Outcome, acts, captured, counted, known_by};
ghost use Rattle.mail_import.specs.Sources.{OnlyMakes};
ghost use Rattle.mail_import.specs.Tallies.{one_more, with_staying};
ghost use Rattle.mail_import.specs.declared.fate.Fate.TheVariants as fate;

use crate::fate::{Fate, Stay, judge};
use crate::known::{AllKnown, FirstRecord};
use crate::room::OldMailroom;
use crate::tally::ImportTally;
use mail_dates::Dating;
use mail_intake::{Reason, Refusal};
use record_known::SealKey;
use std::alloc::{AllocError, Global};

/// How it is decided what becomes of messages.
#[derive(Clone, Copy)]
pub struct Terms {
    pub dating: Dating,
    /// The moment at which the import began, in seconds since 1970.
    pub clock: u64,
    /// Whether messages are captured again that are captured already.
    pub is_again: bool,
}

/// How far an import is.
#[derive(Drop)]
pub struct Progress {
    /// What is captured already.
    pub known: AllKnown,
    /// What became of the messages so far.
    pub tally: ImportTally,
}

/// Leaves a message where it is, and tells why.
pub(crate) fn leave<M: OldMailroom>(room: &mut M, progress: &mut Progress, name: &str, why: Stay)
    ensures calls { OnlyMakes M.goes M.has room.old room.new
        (call.tell name.now (why_of why) ∷ []) }
    ensures tally { progress.new.tally ≡ with_staying (why_of why) progress.old.tally }
    ensures known { progress.new.known ≡ progress.old.known }
{
    progress.tally.count_staying(&why);
    room.tell(name, &why);
}

/// Passes over a message that is captured already.
fn pass_over<M: OldMailroom>(room: &mut M, progress: &mut Progress, name: &str, first: FirstRecord)
    ensures calls { OnlyMakes M.goes M.has room.old room.new
        (call.tell_known name.now first ∷ []) }
    ensures tally { progress.new.tally ≡
        record progress.old.tally { known = one_more progress.old.tally.known } }
    ensures known { progress.new.known ≡ progress.old.known }
{
    progress.tally.count_known();
    room.tell_known(name, first);
}

/// Notes that a message with this seal is captured, and its first record; none where its rules discarded it.
fn note(progress: &mut Progress, key: SealKey, first: Option<FirstRecord>) -> Result<(), AllocError>
    ensures known { (octets : List ℕ) (before : FirstRecords) → seal_in key ≡ seal octets
        → Knows progress.old.known before → OnOk result (Knows progress.new.known
        (known_by octets (captured 0 first) before)) }
    ensures tally { OnOk result (progress.new.tally ≡
        record progress.old.tally { taken = one_more progress.old.tally.taken }) }
    ensures refused { OnErr result (EndsBy (call.taken first) progress.old progress.new) }
{
    progress.tally.count_taken();
    match first {
        Some(first) => progress.known.note(key, first),
        None => Ok(()),
    }
}

/// Hands a message to the archive, to be captured at a moment.
fn hand_over<M: OldMailroom>(
    room: &mut M,
    progress: &mut Progress,
    name: &str,
    key: SealKey,
    moment: u64,
    octets: Vec<u8>,
) -> Result<(), M::Fault>
    ensures taken { OnOk result ((o : Outcome) × Agrees (fate.Taken moment) o
        × OnlyMakes M.goes M.has room.old room.new (acts name.now octets.items o)
        × (progress.new.tally ≡ counted o progress.old.tally)
        × ((first : FirstRecords) → seal_in key ≡ seal octets.items → Knows progress.old.known first
        → Knows progress.new.known (known_by octets.items o first))) }
    ensures ended { OnErr result ((answer : Answer) × EndsBy answer progress.old progress.new
        × OnlyMakes M.goes M.has room.old room.new
        (call.capture name.now moment octets.items answer ∷ [])) }
{
    match room.capture(name, moment, octets) {
        Ok(first) => Ok(note(progress, key, first)?),
        Err(Refusal::Stays(reason)) => {
            leave(room, progress, name, Stay::For(reason));
            Ok(())
        }
        Err(Refusal::Ends(fault)) => Err(fault),
    }
}

/// Takes a message, unless it is captured already or stays. A failure is one with which nothing more can be captured, or want of
/// memory to know that this message is captured.
pub(crate) fn take<M: OldMailroom>(
    alloc: Global,
    room: &mut M,
    terms: &Terms,
    progress: &mut Progress,
    name: &str,
    octets: Vec<u8>,
) -> Result<(), M::Fault>
    ensures taken { OnOk result ((o : Outcome)
        × Takes M.goes M.has terms.now room.old progress.old name.now octets.items o
        room.new progress.new) }
    ensures ended { OnErr result
        (EndsAt M.goes M.has terms.now room.old progress.old name.now octets.items
        room.new progress.new) }
{
    let Ok((key, fate)) = judge(alloc, terms, &progress.known, octets.as_slice()) else {
        leave(room, progress, name, Stay::For(Reason::NoMemory));
        return Ok(());
    };
    match fate {
        Fate::Known(first) => pass_over(room, progress, name, first),
        Fate::NoMail(why) => leave(room, progress, name, Stay::NoMail(why)),
        Fate::Undated(dated) => leave(room, progress, name, Stay::Undated(dated)),
        Fate::Taken(moment) => return hand_over(room, progress, name, key, moment, octets),
    }
    Ok(())
}
