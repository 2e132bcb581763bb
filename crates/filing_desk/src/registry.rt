//! The desk as the `Registry` that a session talks to: what each command does. What takes more than a few lines is in
//! `archive`, `captures` and `dry_runs`.

use crate::archive::{file_outcome, record_number};
use crate::desk::Desk;
use crate::dry_runs::{outcome_of, outcome_of_image, run_image};
use crate::messages::Message;
use crate::payloads::{judge_image, judge_message, judge_script, judge_text, script_text};
use class_plan::{Date, Plan};
use desk_commands::{Capture, DeskFault, MAX_PLAN_OCTETS, Payload, Registry, Turn};
use desk_flights::captures_hold_flights;
use record_archive::{Line, Records};
use sieve_meaning::Outcome;

impl<A: Records> Registry for Desk<A> {
    ghost use Rattle.filing_desk.specs.Standing.{desk_keeper};

    ghost keeper = { desk_keeper A.keeper };

    fn add_class(&mut self, path: &[u8]) -> Result<(), DeskFault> {
        self.store.add_class(path)?;
        self.open_paths = None;
        Ok(())
    }

    fn set_plan(&mut self, text: &Payload) -> Result<(), DeskFault> {
        let octets = text.octets(MAX_PLAN_OCTETS, DeskFault::PlanTooLong)?;
        let plan = Plan::from_toml(self.alloc, octets)?;
        self.store.revise(plan)?;
        self.open_paths = None;
        Ok(())
    }

    fn set_script(&mut self, officer: &[u8], name: &[u8], text: &Payload) -> Result<(), DeskFault> {
        let script = judge_script(self.alloc, text)?;
        self.officers.set_script(officer, name, script)?;
        Ok(())
    }

    fn set_global(&mut self, name: &[u8], text: &Payload) -> Result<(), DeskFault> {
        let script = judge_script(self.alloc, text)?;
        self.officers.set_global(name, script)?;
        Ok(())
    }

    fn activate(&mut self, officer: &[u8], name: &[u8]) -> Result<(), DeskFault> {
        self.officers.activate(officer, name)?;
        Ok(())
    }

    fn deactivate(&mut self, officer: &[u8]) {
        self.officers.deactivate(officer);
    }

    fn set_image(&mut self, officer: &[u8], image: &Payload) -> Result<(), DeskFault> {
        let program = judge_image(self.alloc, image)?;
        self.officers.set_image(officer, program)?;
        Ok(())
    }

    fn file(&mut self, script: &Payload, message: &Payload) -> Result<Outcome, DeskFault> {
        let text = script_text(script)?;
        if let Some(image) = self.officers.filed_image(text) {
            let case = judge_message(self.alloc, self.store.plan(), message)?;
            let outcome = outcome_of_image(self.alloc, image, &case)?;
            return Ok(outcome);
        }
        self.officers.drop_filed();
        let checked = judge_text(self.alloc, text)?;
        let case = judge_message(self.alloc, self.store.plan(), message)?;
        let outcome = outcome_of(self.alloc, &mut self.officers, text, &checked, &case)?;
        Ok(outcome)
    }

    fn try_image(&self, image: &Payload, message: &Payload) -> Result<Outcome, DeskFault> {
        let program = judge_image(self.alloc, image)?;
        let case = judge_message(self.alloc, self.store.plan(), message)?;
        let outcome = run_image(self.alloc, &program, &case)?;
        Ok(outcome)
    }

    fn hold(&mut self, name: &[u8], number: u64) -> Result<(), DeskFault> {
        let number = record_number(number)?;
        self.store.hold(name, number)?;
        Ok(())
    }

    fn release(&mut self, name: &[u8], number: u64) -> Result<(), DeskFault> {
        let number = record_number(number)?;
        self.store.release(name, number)?;
        Ok(())
    }

    fn due(&mut self, day: Date) -> Result<Vec<Line>, DeskFault> {
        let lines = self.store.due(day)?;
        Ok(lines)
    }

    fn destroy(&mut self, number: u64, day: Date) -> Result<(), DeskFault> {
        let number = record_number(number)?;
        self.store.destroy(number, day)?;
        Ok(())
    }

    fn begin(
        &mut self,
        officer: &[u8],
        moment: u64,
        message: Payload,
    ) -> Result<(u32, u32), DeskFault> {
        self.begin_message(officer, moment, Message::Whole(message))
    }

    fn turn(&mut self, ticket: u64, count: u32) -> Result<Turn, DeskFault> {
        self.flights.turn(ticket, count)
    }

    fn finish(&mut self, ticket: u64) -> Result<Capture, DeskFault> {
        captures_hold_flights();
        let Some(flight) = self.flights.get(ticket) else {
            return Err(DeskFault::NoTicket);
        };
        if !flight.is_ended() {
            return Err(DeskFault::NotEnded);
        }
        let outcome = flight.outcome()?;
        let lines = file_outcome(&mut self.store, flight, &outcome.classes)?;
        self.flights.remove(ticket);
        Ok(Capture {
            fault: outcome.fault,
            lines,
        })
    }
}
