//! One message through a desk.

ghost use Rattle.std.specs.Prelude.{◌≡◌, ℕ, List, IfErr, IfOk};
ghost use Rattle.desk_commands.specs.Limits.{greatest_message};
ghost use Rattle.desk_commands.specs.Payloads.{IsOf};
ghost use Rattle.desk_commands.specs.Standing.{Standing, flight_of};
ghost use Rattle.desk_commands.specs.declared.fault.DeskFault.TheVariants.{NoMemory};
ghost use Rattle.filing_desk.specs.Standing.{StandsFor, desk_keeper};
ghost use Rattle.filing_desk.specs.Deliveries.{BeginsCapture, Delivers, TellsFault};

use crate::desk::Desk;
use crate::patience::Patience;
use crate::turns::make_turns;
use desk_commands::{Capture, DeskFault, Payload, Registry};
use record_archive::Records;
use sieve_meaning::RunFault;
use std::alloc::AllocError;

/// What is done with a message whose run ends with a fault.
#[derive(Clone, Copy)]
pub enum OnFault {
    /// It is given up, before anything of it is stored.
    GiveUp,
    /// It is captured in `unfiled`, as FINISH does.
    Capture,
}

/// What became of a message.
#[derive(Drop)]
pub enum Delivery {
    /// It is captured: what FINISH answered.
    Captured(Capture),
    /// Its run ended with this fault, and nothing of it is stored.
    GivenUp(RunFault),
    /// The patience was over before its run came to its end, and nothing of it is stored.
    OutOfTime,
}

/// Begins a capture, and lets its run come to its end. Answers the ticket; none where the patience was over before.
fn begin_and_run<A: Records, P: Patience>(
    desk: &mut Desk<A>,
    officer: &[u8],
    moment: u64,
    message: Payload,
    patience: &mut P,
) -> Result<Option<u32>, DeskFault>
    ensures { (m : List ℕ) → IsOf greatest_message message m
        → BeginsCapture (desk_keeper A.keeper) P.asked desk.old officer.now moment m
        patience.old result patience.new desk.new }
{
    let (ticket, budget) = desk.begin(officer, moment, message)?;
    let lasted = make_turns(desk, u64::from(ticket), budget, patience)?;
    if lasted { Ok(Some(ticket)) } else { Ok(None) }
}

/// The fault of a capture that has come to its end, if its run ended with one.
fn fault_in<A: Records>(desk: &Desk<A>, ticket: u32) -> Result<Option<RunFault>, AllocError>
    ensures { (s : Standing) → StandsFor A.keeper desk.now s
        → IfOk result (TellsFault (flight_of ticket s.flights)) }
{
    let Some((_, machine)) = desk.in_flight(u64::from(ticket)) else {
        return Ok(None);
    };
    if !machine.is_ended() {
        return Ok(None);
    }
    let outcome = machine.outcome()?;
    Ok(outcome.fault)
}

/// The fault for which a capture is to be given up, if there is one.
fn fault_against<A: Records>(
    desk: &Desk<A>,
    ticket: u32,
    on_fault: OnFault,
) -> Result<Option<RunFault>, DeskFault>
    ensures told { on_fault ≡ OnFault.GiveUp → (s : Standing) → StandsFor A.keeper desk.now s
        → IfOk result (TellsFault (flight_of ticket s.flights)) }
    ensures none { on_fault ≡ OnFault.Capture → IfOk result (λ f. f ≡ None) }
    ensures refused { IfErr result (λ f. f ≡ NoMemory) }
{
    match on_fault {
        OnFault::GiveUp => Ok(fault_in(desk, ticket)?),
        OnFault::Capture => Ok(None),
    }
}

/// Delivers a message at a moment, in seconds since 1970-01-01T00:00:00Z, by the program of an officer: BEGIN, turns up
/// to the end of its run, and FINISH. Between two turns the patience is asked, and where it is over the message is given
/// up (`OutOfTime`), whatever is done on a fault.
///
/// What is answered as captured is what FINISH answered, and the desk comes to the state after these calls. A message that
/// is given up, or that one of the calls refuses, leaves the archive as it was; its capture may stay in flight.
///
/// Under `GiveUp` a message is given up for the fault with which its run ended, and one that is captured has no fault.
/// Under `Capture` none is given up for a fault.
pub fn deliver<A: Records, P: Patience>(
    desk: &mut Desk<A>,
    officer: &[u8],
    moment: u64,
    message: Payload,
    on_fault: OnFault,
    patience: &mut P,
) -> Result<Delivery, DeskFault>
    ensures { (m : List ℕ) → IsOf greatest_message message m
        → Delivers (desk_keeper A.keeper) P.asked desk.old officer.now moment m on_fault
        patience.old result patience.new desk.new }
{
    let Some(ticket) = begin_and_run(desk, officer, moment, message, patience)? else {
        return Ok(Delivery::OutOfTime);
    };
    if let Some(fault) = fault_against(desk, ticket, on_fault)? {
        return Ok(Delivery::GivenUp(fault));
    }
    let capture = desk.finish(u64::from(ticket))?;
    Ok(Delivery::Captured(capture))
}
