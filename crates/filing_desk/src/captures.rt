//! How captures begin, and what is shown of them in flight.

ghost use Rattle.std.specs.Prelude.{◌≡◌, ℕ, List, ◌≤◌, ◌<◌, ◌/◌, pos, length, IfOk, IfErr, OnOk, MatchOption};
ghost use Rattle.jiff.specs.Words.{epoch_day};
ghost use Rattle.class_plan.specs.Dates.{IsCaptureDay};
ghost use Rattle.class_plan.specs.Plans.{is_open_in};
ghost use Rattle.mail_case.specs.Message.{is_among};
ghost use Rattle.desk_commands.specs.Limits.{greatest_message};
ghost use Rattle.desk_commands.specs.Standing as commands;
ghost use Rattle.desk_commands.specs.Standing.{Standing, flight_of};
ghost use Rattle.desk_commands.specs.CallAnswers.{answer_of_ticket};
ghost use Rattle.filing_desk.specs.Beginning.{IsNewFlight, IsNumbered, KeepsAll, against_begin};
ghost use Rattle.filing_desk.specs.Messages.{IsMessageOf, IsShortMessage, whole_message};
ghost use Rattle.filing_desk.specs.Standing.{AreOpenPaths, IsShownBy};

use crate::desk::Desk;
use crate::messages::Message;
use class_plan::{Date, day_of};
use desk_commands::DeskFault;
use desk_flights::{Flight, PinnedPaths, captures_hold_flights};
use filing_machine::{Machine, every_run_ends};
use filing_verify::Verified;
use record_archive::Records;
use std::alloc::{AllocError, Global};

impl<A: Records> Desk<A> {
    ghost use Rattle.desk_commands.specs.Calls.{Calls};
    ghost use Rattle.filing_desk.specs.Standing.{StandsFor, desk_keeper};

    /// The day of a moment, where one more capture may begin. Else 94, 95, 90 or 97, judged in this order.
    fn judge_begin(&self, moment: u64, message: &Message<'_>) -> Result<Date, DeskFault>
        ensures day { IfOk result (λ d. IsCaptureDay d × (epoch_day d ≡ pos (moment / 86400))) }
        ensures short { OnOk result (IsShortMessage message.now) }
        ensures few { OnOk result ((length self.now.flights < 64) × (self.now.last < 4294967295)) }
        ensures allowed { (m : List ℕ) → IsMessageOf message.now m →
            OnOk result (against_begin self.now moment (length m) ≡ None) }
        ensures refused { (m : List ℕ) → IsMessageOf message.now m
            → IfErr result (λ f. IsNumbered f (against_begin self.now moment (length m))) }
    {
        let Some(day) = day_of(moment) else {
            return Err(DeskFault::BadMoment);
        };
        if message.is_too_long() {
            return Err(DeskFault::MessageTooLong);
        }
        if self.flights.is_full() {
            return Err(DeskFault::TooManyInFlight);
        }
        if self.last == u32::MAX {
            return Err(DeskFault::TicketsUsedUp);
        }
        Ok(day)
    }

    /// The open paths of the plan, which captures share until the plan is changed.
    fn shared_paths(&mut self) -> Result<PinnedPaths, AllocError>
        ensures same { KeepsAll self.old self.new }
        ensures kept { AreOpenPaths self.old.open_paths (A.plan_of self.old.store) →
            AreOpenPaths self.new.open_paths (A.plan_of self.old.store) }
        ensures open { AreOpenPaths self.old.open_paths (A.plan_of self.old.store) →
            IfOk result (λ p. is_among p ≡ is_open_in (A.plan_of self.old.store)) }
    {
        if let Some(paths) = &self.open_paths {
            return paths.clone();
        }
        let paths = self.store.plan().open_paths(self.alloc)?;
        let paths = PinnedPaths::new(self.alloc, paths)?;
        self.open_paths = Some(paths.clone()?);
        Ok(paths)
    }

    /// A new capture of a message by an officer's program, with no step made.
    fn enter(
        &mut self,
        ticket: u32,
        officer: &[u8],
        message: Vec<u8>,
        day: Date,
    ) -> Result<Flight, AllocError>
        requires length { length message.items ≤ greatest_message }
        requires day { IsCaptureDay day }
        ensures same { KeepsAll self.old self.new }
        ensures kept { AreOpenPaths self.old.open_paths (A.plan_of self.old.store) →
            AreOpenPaths self.new.open_paths (A.plan_of self.old.store) }
        ensures entered { AreOpenPaths self.old.open_paths (A.plan_of self.old.store) →
            IfOk result (IsNewFlight (A.plan_of self.old.store) self.old
            officer.now ticket message.items day) }
    {
        let program = self.officers.pin(officer)?;
        let paths = self.shared_paths()?;
        let flight = Flight::begin(self.alloc, ticket, program, message, paths, day)?;
        Ok(flight)
    }

    /// Begins a capture as `Registry::begin` says. Nothing is allocated, and no pieces are joined, before the call is
    /// judged.
    pub(crate) fn begin_message(
        &mut self,
        officer: &[u8],
        moment: u64,
        message: Message<'_>,
    ) -> Result<(u32, u32), DeskFault>
        ensures { (m : List ℕ) → IsMessageOf message.entry m → Calls (desk_keeper A.keeper)
            self.old (commands.begin officer.now moment m) (answer_of_ticket result) self.new }
    {
        captures_hold_flights();
        every_run_ends();
        let day = self.judge_begin(moment, &message)?;
        let octets = message.octets(self.alloc)?;
        let ticket = self.last + 1;
        let flight = self.enter(ticket, officer, octets, day)?;
        let budget = flight.program().budget();
        self.flights.push(flight)?;
        self.last = ticket;
        Ok((ticket, budget))
    }

    /// Begins a capture of a message that comes in pieces, of which each may be empty. It is answered as `begin` is for
    /// the pieces one after the other: 94 before the pieces are looked at, 95 by their lengths, and 90 or 97, before
    /// they are joined. The capture keeps the octets once, and none of the pieces.
    pub fn begin_pieces(
        &mut self,
        officer: &[u8],
        moment: u64,
        pieces: &[&[u8]],
    ) -> Result<(u32, u32), DeskFault>
        ensures { Calls (desk_keeper A.keeper) self.old
            (commands.begin officer.now moment (whole_message pieces.now))
            (answer_of_ticket result) self.new }
    {
        self.begin_message(officer, moment, Message::Pieces(pieces))
    }

    /// The pinned program of a capture in flight, and its machine; none where no capture in flight has the ticket.
    pub fn in_flight(&self, ticket: u64) -> Option<(&Verified, &Machine)>
        ensures { (s : Standing) → StandsFor A.keeper self.now s
            → MatchOption result (flight_of ticket s.flights ≡ None)
            (λ p. IsShownBy (flight_of ticket s.flights) p.0.now p.1.now) }
    {
        match self.flights.get(ticket) {
            Some(flight) => Some((flight.program(), flight.machine())),
            None => None,
        }
    }
}
