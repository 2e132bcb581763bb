//! The destruction of records that are asked for, and why it ends where that is no success.

ghost use Rattle.std.specs.Prelude.{◌≡◌, ◌++◌, flat_map, is_ok, IfOk, OnOk};
ghost use Rattle.jiff.specs.Words.{epoch_day};
ghost use Rattle.cli_console.specs.Failures.{IsOfStore};
ghost use Rattle.cli_changes.specs.Destructions.{DisposesAsked, HandsOverFor, IsSettled, IsUndone};
ghost use Rattle.cli_changes.specs.ReasonLines.{action_of, hold_words, not_approved_words, not_due_words, reason_words, with_day};

use class_plan::{Action, Date, Schedule};
use cli_console::{Failure, Status};
use cli_texts::put_number;
use record_choice::{DisposeFault, Disposed, End, Reason, Registrar, Repository, dispose};
use record_store::StoreFault;
use std::alloc::{AllocError, Global};
use tool_texts::{Shown, put};

/// Adds the names of holds, each in quotation marks after a blank.
fn put_names(text: &mut Shown, names: &[Vec<u8>]) -> Result<(), AllocError>
    ensures { OnOk result (text.new ≡ text.old ++ flat_map hold_words names.now) }
{
    for name in names {
        put!(text; " " quoted(name.as_slice()))?;
    }
    Ok(())
}

/// The word of a schedule for what is done with its records.
fn action_word(schedule: Option<Schedule>) -> &'static str
    ensures { result.now ≡ action_of schedule }
{
    match schedule {
        Some(Schedule::After { action, .. }) => match action {
            Action::Review => "review",
            Action::Transfer => "transfer",
            Action::Destroy => "destroy",
        },
        Some(Schedule::Permanent) | None => "permanent",
    }
}

/// Adds words, and a day behind them.
#[tactic(auto, unfolding(crate::specs::ReasonLines::with_day))]
fn put_day(text: &mut Shown, what: &'static str, day: Date) -> Result<(), AllocError>
    ensures { OnOk result (text.new ≡ text.old ++ with_day what.now day) }
{
    put!(text; words(what) value(&day))
}

/// Adds that a record is not due yet, or never.
fn put_not_due(text: &mut Shown, due: Option<Date>) -> Result<(), AllocError>
    ensures { OnOk result (text.new ≡ text.old ++ not_due_words due) }
{
    match due {
        Some(due) => put_day(text, "82: not due before ", due),
        None => text.words("82: never due"),
    }
}

/// Adds why a record may not be destroyed, in words after the number of the refusal.
fn put_reason(text: &mut Shown, reason: &Reason) -> Result<(), AllocError>
    ensures { OnOk result (text.new ≡ text.old ++ reason_words reason.now) }
{
    match reason {
        Reason::Held(names) => {
            text.words("81: kept by the holds")?;
            put_names(text, names.as_slice())
        }
        Reason::NotForDestruction(schedule) => {
            text.words("83: the schedule of its class says ")?;
            text.words(action_word(*schedule))
        }
        Reason::NotDue(due) => put_not_due(text, *due),
        Reason::NoRecord => text.words("80: there is no record of that number"),
        Reason::Destroyed => text.words("84: the record is destroyed already"),
    }
}

/// That the record of a number may not be destroyed, and why.
#[tactic(auto, unfolding(crate::specs::ReasonLines::not_approved_words))]
fn not_approved(
    alloc: Global,
    volume: Option<u32>,
    number: u32,
    reason: &Reason,
) -> Result<Shown, AllocError>
    ensures { IfOk result (λ text. text ≡ not_approved_words volume number reason.now) }
{
    let mut text = Shown::new(alloc);
    put_number(&mut text, volume, number)?;
    text.words(": ")?;
    put_reason(&mut text, reason)?;
    Ok(text)
}

/// The failure of a call of the store.
pub(crate) fn unread(rt: &HostRuntime, fault: StoreFault) -> Failure
    ensures { IsOfStore fault result }
{
    Failure::of_store(rt.alloc(), "the store", fault)
}

/// The failure of a disposal that destroys nothing, of a volume in an archive of volumes.
pub(crate) fn refused(
    rt: &HostRuntime,
    volume: Option<u32>,
    fault: DisposeFault<StoreFault>,
) -> Failure
    ensures { IsUndone fault result }
{
    match fault {
        DisposeFault::Repository(fault) => unread(rt, fault),
        DisposeFault::NoMemory => Failure::NoMemory,
        DisposeFault::NotApproved(number, reason) => {
            let words = not_approved(rt.alloc(), volume, number, &reason);
            Failure::shown(Status::BadData, words)
        }
    }
}

/// Why a disposal ended, where that is no success.
fn settle(rt: &HostRuntime, end: End<StoreFault, Failure>) -> Result<(), Failure>
    ensures { IsSettled end result }
{
    match end {
        End::Repository(fault) => Err(unread(rt, fault)),
        End::Registrar(failure) => Err(failure),
        End::Done => Ok(()),
    }
}

/// Destroys the records of some numbers, all that are due where there is no number, one after the other and each with a
/// certificate, up to the first that fails. None is destroyed unless each of them may be.
pub(crate) fn destroy_numbers<R: Repository<Fault = StoreFault>, K: Registrar<Fault = Failure>>(
    rt: &HostRuntime,
    archive: &mut R,
    certificates: &mut K,
    volume: Option<u32>,
    numbers: &[u32],
    day: Date,
) -> Result<(), Failure>
    requires { K.is_open certificates.old }
    ensures falls { R.clean archive.new → R.clean archive.old }
    ensures these { HandsOverFor K.takes certificates.old certificates.new (R.clean archive.new)
        (R.stands archive.old) (λ cs a. DisposesAsked (R.stands archive.new) (epoch_day day)
        numbers.now (is_ok result) cs a) }
{
    match dispose(rt.alloc(), archive, certificates, numbers, day) {
        Ok(Disposed { end, .. }) => settle(rt, end),
        Err(fault) => Err(refused(rt, volume, fault)),
    }
}
