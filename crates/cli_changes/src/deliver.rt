//! `deliver`: one message from standard input.

ghost use Rattle.std.specs.Prelude.{◌≡◌, ◌++◌, ℕ, List, is_ok, IfOk, IfSome, OnOk};
ghost use Rattle.desk_commands.specs.Limits.{greatest_message};
ghost use Rattle.desk_commands.specs.Payloads.{IsOf};
ghost use Rattle.cli_changes.specs.CaptureLines.{captured_after, due_words};
ghost use Rattle.cli_changes.specs.Deliveries.{
  IsDelivered,
  IsDeliveredAt,
  IsDeliveredTo,
  is_captured,
};
ghost use Rattle.cli_changes.specs.Endings.{desk_status as desk_status_of, fault_of, IsFailureOf};
ghost use Rattle.record_ledger.specs.Ledgers.{keeper_of};

use crate::fault_words::{Cause, given_up_words, put_fault};
use crate::moments::{Timing, date_of_clock, moment_in};
use crate::rules::FilingRules;
use crate::time_limit::{TimeLimit, too_slow_words};
use cli_console::{Failure, Status, is_by, tell, write_text};
use cli_history::StoreLedger;
use cli_sources::read_payload;
use cli_texts::{captured_line, captured_words, undecoded_lines};
use desk_commands::{Capture, DeskFault, MAX_MESSAGE_OCTETS, Payload};
use filing_desk::{Delivery, Desk, deliver};
use record_archive::{Line, Records};
use sieve_meaning::RunFault;
use sqlite::Alter;
use std::alloc::{AllocError, Global};
use tool_texts::Shown;

/// The status for what a desk refuses; none where there was no memory.
pub(crate) fn desk_status(fault: DeskFault) -> Option<Status>
    ensures { result ≡ desk_status_of fault }
{
    match fault {
        DeskFault::NoMemory => None,
        DeskFault::BadMoment => Some(Status::Usage),
        DeskFault::MessageTooLong => Some(Status::BadData),
        DeskFault::Text(..)
        | DeskFault::Check(_)
        | DeskFault::Plan(_)
        | DeskFault::PlanTooLong
        | DeskFault::ImageTooLong
        | DeskFault::ImageForm
        | DeskFault::Image(_)
        | DeskFault::LibraryFull
        | DeskFault::Archive(_)
        | DeskFault::Database
        | DeskFault::TooManyInFlight
        | DeskFault::NoTicket
        | DeskFault::NotEnded
        | DeskFault::NoScript
        | DeskFault::TicketsUsedUp => Some(Status::TryAgain),
    }
}

/// The failure of a call of the desk.
pub fn desk_failure(alloc: Global, name: &str, fault: DeskFault) -> Failure
    ensures { IsFailureOf (desk_status_of fault) result }
{
    match desk_status(fault) {
        Some(status) => Failure::numbered(alloc, status, name, fault.refusal().number),
        None => Failure::NoMemory,
    }
}

/// Adds the record lines of a capture, each after a text; or that the message was discarded. They name the volume that the records
/// are in, in an archive of volumes.
fn put_records(
    alloc: Global,
    text: &mut Shown,
    before: &Shown,
    volume: Option<u32>,
    capture: &Capture,
) -> Result<(), AllocError> {
    for line in capture.lines.as_slice() {
        text.text(before)?;
        text.text(&captured_line(alloc, volume, line)?)?;
    }
    if !capture.lines.is_empty() {
        return Ok(());
    }
    text.text(before)?;
    text.words("discarded")?;
    text.end_line()
}

/// Adds a record of a capture, after a text.
#[tactic(auto, unfolding(crate::specs::CaptureLines::captured_after))]
fn put_captured(
    alloc: Global,
    text: &mut Shown,
    before: &Shown,
    volume: Option<u32>,
    line: &Line,
) -> Result<(), AllocError>
    ensures { OnOk result (text.new ≡ text.old ++ captured_after before.now volume line.now) }
{
    text.text(before)?;
    text.text(&captured_words(alloc, volume, line)?)
}

/// Adds what is told of a record that is due as it is captured.
#[tactic(auto, unfolding(crate::specs::CaptureLines::due_words))]
fn put_due(
    alloc: Global,
    text: &mut Shown,
    before: &Shown,
    volume: Option<u32>,
    line: &Line,
) -> Result<(), AllocError>
    ensures { OnOk result (text.new ≡ text.old ++ due_words before.now volume line.now) }
{
    put_captured(alloc, text, before, volume, line)?;
    text.words(" is due already")
}

/// Tells of the records of a capture that are due by the day of the clock.
fn tell_due(rt: &HostRuntime, before: &Shown, volume: Option<u32>, capture: &Capture) {
    let Some(today) = date_of_clock(rt) else {
        return;
    };
    for line in capture.lines.as_slice() {
        if is_by(line.due, today) {
            let mut text = Shown::new(rt.alloc());
            if let Ok(()) = put_due(rt.alloc(), &mut text, before, volume, line) {
                tell(rt, &text);
            }
        }
    }
}

/// What is told of the words of a message that rules see undecoded, if there is memory for it.
pub fn undecoded_in(alloc: Global, message: &Payload) -> Vec<Shown> {
    let Payload::Whole(octets) = message else {
        return Vec::new(alloc);
    };
    match undecoded_lines(alloc, octets.as_slice()) {
        Ok(lines) => lines,
        Err(AllocError) => Vec::new(alloc),
    }
}

/// Adds two texts, one behind the other.
fn put_both(text: &mut Shown, before: &Shown, after: &Shown) -> Result<(), AllocError> {
    text.text(before)?;
    text.text(after)
}

/// Tells lines, each after a text.
fn tell_lines(rt: &HostRuntime, before: &Shown, lines: &[Shown]) {
    for line in lines {
        let mut text = Shown::new(rt.alloc());
        if let Ok(()) = put_both(&mut text, before, line) {
            tell(rt, &text);
        }
    }
}

/// Adds the fault of a run in words after a text, with what is known of it.
fn put_fault_line(
    text: &mut Shown,
    before: &Shown,
    fault: RunFault,
    cause: Option<&Cause>,
) -> Result<(), AllocError> {
    text.text(before)?;
    put_fault(text, fault, cause)
}

/// Tells of the fault with which the run over a captured message ended, if it did, with what is known of it.
pub fn tell_fault(rt: &HostRuntime, before: &Shown, capture: &Capture, cause: Option<&Cause>) {
    if let Some(fault) = capture.fault {
        let mut text = Shown::new(rt.alloc());
        if let Ok(()) = put_fault_line(&mut text, before, fault, cause) {
            tell(rt, &text);
        }
    }
}

/// Reports a capture, with what is told of its undecoded words, and what is known of the fault in which its run ended, if it
/// did. It is made, so whatever happens to the report is no failure.
pub fn report_capture(
    rt: &HostRuntime,
    before: &Shown,
    volume: Option<u32>,
    capture: &Capture,
    undecoded: &[Shown],
    cause: Option<&Cause>,
) {
    let mut text = Shown::new(rt.alloc());
    if let Ok(()) = put_records(rt.alloc(), &mut text, before, volume, capture) {
        let _ = write_text(rt, &text);
    }
    tell_due(rt, before, volume, capture);
    tell_lines(rt, before, undecoded);
    tell_fault(rt, before, capture, cause);
}

/// The message on standard input. `BadData` with the number of one that is too long; where it cannot be read it may be
/// done later, `TryAgain`.
pub fn read_message(rt: &HostRuntime) -> Result<Payload, Failure> {
    let alloc = rt.alloc();
    match read_payload(alloc, rt.stdin(), MAX_MESSAGE_OCTETS) {
        Ok(Payload::TooLong) => {
            Err(desk_failure(alloc, "the message", DeskFault::MessageTooLong))
        }
        Ok(message) => Ok(message),
        Err(error) => { Err(Failure::at_thing(alloc, Status::TryAgain, "standard input", &error)) }
    }
}

/// What became of a message, and what is known of the fault in which its run ended, if it did.
pub struct Delivered {
    outcome: Delivery,
    cause: Option<Cause>,
}

impl Drop for Delivered {
    fn drop(self) {
        let Delivered {
            outcome: _,
            cause: _,
        } = self;
    }
}

/// The fault with which the run over a message ended, if it did.
fn fault_in(outcome: &Delivery) -> Option<RunFault>
    ensures { result ≡ fault_of outcome.now }
{
    match outcome {
        Delivery::Captured(capture) => capture.fault,
        Delivery::GivenUp(fault) => Some(*fault),
        Delivery::OutOfTime => None,
    }
}

/// The octets of a message once more, if there is memory for them.
fn copy_of(message: &Payload) -> Option<Vec<u8>>
    ensures { IfSome result (λ octets. IsOf greatest_message message.now octets.items) }
{
    match message {
        Payload::Whole(octets) => octets.clone().ok(),
        Payload::TooLong | Payload::NoMemory => None,
    }
}

/// The failure of a delivery.
fn delivery_failure(alloc: Global, fault: DeskFault) -> Failure
    ensures { IsFailureOf (desk_status_of fault) result }
{
    let name = match fault {
        DeskFault::BadMoment => "--at",
        _ => "the message",
    };
    desk_failure(alloc, name, fault)
}

/// Delivers a message to a desk by rules at a moment, in seconds since 1970, within the time that it may take.
fn deliver_in_time<A: Records>(
    rt: &HostRuntime,
    desk: &mut Desk<A>,
    filing: &FilingRules<'_>,
    moment: u64,
    message: Payload,
) -> Result<Delivery, Failure>
    ensures { IfOk result (λ done. (octets : List ℕ) → IsOf greatest_message message octets
        → IsDelivered A.keeper desk.old filing.now.officer.now moment octets
        filing.now.on_fault (Ok done) desk.new) }
{
    let mut time = TimeLimit::from_now(rt, filing.limit)?;
    let officer = filing.officer.as_bytes();
    match deliver(desk, officer, moment, message, filing.on_fault, &mut time) {
        Ok(done) => Ok(done),
        Err(fault) => Err(delivery_failure(rt.alloc(), fault)),
    }
}

/// What is known of the fault with which the run over a message of these octets ended, if it did.
fn cause_in<A: Records>(
    rt: &HostRuntime,
    archive: &A,
    filing: &FilingRules<'_>,
    outcome: &Delivery,
    octets: Option<Vec<u8>>,
) -> Option<Cause> {
    let fault = fault_in(outcome)?;
    let octets = octets?;
    filing.cause_of_fault(rt.alloc(), archive.plan(), fault, octets.as_slice())
}

/// Delivers a message at a moment, in seconds since 1970, to an archive by rules, and gives the archive back.
fn deliver_at<A: Records>(
    rt: &HostRuntime,
    archive: A,
    filing: &FilingRules<'_>,
    moment: u64,
    message: Payload,
) -> (A, Result<Delivered, Failure>)
    ensures { IfOk result.1 (λ d. (octets : List ℕ) → IsOf greatest_message message octets
        → IsDeliveredTo A.keeper filing.now archive moment octets d.outcome result.0) }
{
    let octets = copy_of(&message);
    let mut desk = match filing.desk(rt, archive, false) {
        Ok(desk) => desk,
        Err((archive, failure)) => return (archive, Err(failure)),
    };
    match deliver_in_time(rt, &mut desk, filing, moment, message) {
        Ok(outcome) => {
            let archive = desk.into_store();
            let cause = cause_in(rt, &archive, filing, &outcome, octets);
            (archive, Ok(Delivered { outcome, cause }))
        }
        Err(failure) => (desk.into_store(), Err(failure)),
    }
}

/// Delivers a message to a store by rules, and gives the store back. Where the clock is before the days of the store it
/// may be done later, `TryAgain`, unless the moment is named.
pub fn deliver_to<'a, S: Alter>(
    rt: &HostRuntime,
    archive: StoreLedger<'a, S>,
    filing: &FilingRules<'_>,
    timing: Timing,
    message: Payload,
) -> (StoreLedger<'a, S>, Result<Delivered, Failure>)
    ensures { IfOk result.1 (λ d. (octets : List ℕ) → IsOf greatest_message message octets
        → IsDeliveredAt (keeper_of S.Store) timing filing.now archive.entry octets
        d.outcome result.0) }
{
    let mut archive = archive;
    match moment_in(rt, &mut archive, timing) {
        Ok(moment) => deliver_at(rt, archive, filing, moment, message),
        Err(failure) => (archive, Err(failure)),
    }
}

/// Writes the records of a delivery to standard output, and tells of its undecoded words and of a fault. It is a success where the
/// message was captured or discarded, and only there; where it was given up, also since it took longer than `limit` seconds,
/// that is a failure, `TryAgain`. The volume is the one that the message was delivered to, in an archive of volumes.
pub fn report_delivery(
    rt: &HostRuntime,
    volume: Option<u32>,
    delivered: &Delivered,
    limit: u64,
    undecoded: &[Shown],
) -> Result<(), Failure>
    ensures { is_ok result ≡ is_captured delivered.now.outcome }
{
    let cause = delivered.cause.as_ref();
    match &delivered.outcome {
        Delivery::Captured(capture) => {
            report_capture(
                rt,
                &Shown::new(rt.alloc()),
                volume,
                capture,
                undecoded,
                cause,
            );
            Ok(())
        }
        Delivery::GivenUp(fault) => Err(Failure::shown(
            Status::TryAgain,
            given_up_words(rt.alloc(), *fault, cause),
        )),
        Delivery::OutOfTime => Err(Failure::shown(
            Status::TryAgain,
            too_slow_words(rt.alloc(), limit),
        )),
    }
}
