//! A capture in flight.

ghost use Rattle.std.specs.Prelude.{◌≡◌, ◌≤◌, ◌+◌, length, true, not, nat_lt, IfOk, OnOk, OnErr};
ghost use Rattle.std.specs.List.{All};
ghost use Rattle.class_paths.specs.Paths.{IsIncreasing};
ghost use Rattle.class_plan.specs.Dates.{IsCaptureDay};
ghost use Rattle.sieve_meaning.specs.Case.{Facts};
ghost use Rattle.filing_image.specs.Program.{Program};
ghost use Rattle.filing_machine.specs.Runs.{IsOnRun};
ghost use Rattle.desk_flights.specs.FlightViews.{IsGranted, IsOutcome, IsOpenAtBegin, StopsShort, TellsEnd, TellsTurns, facts_in, has_ended};
ghost use Rattle.desk_flights.specs.Begun.{HoldsBegun};
ghost use Rattle.desk_flights.specs.Machines.{HasMade, IsStopped};

use crate::paths::PinnedPaths;
use class_plan::Date;
use desk_commands::{MAX_MESSAGE_OCTETS, Turn};
use filing_machine::Machine;
use filing_verify::Verified;
use mail_case::{Case, WholeCase};
use sieve_meaning::Outcome;
use std::alloc::{AllocError, Global};
use std::marker::Model;
use std::rc::Rc;

/// A capture in flight: what is pinned for it, and a machine that runs the pinned program on the pinned case.
#[derive(Drop)]
pub struct Flight {
    ticket: u32,
    program: Rc<Verified>,
    message: Vec<u8>,
    case: WholeCase<PinnedPaths>,
    day: Date,
    machine: Machine,
}

impl Model for Flight {
    ghost use Rattle.class_plan.specs.Dates.{IsCaptureDay};
    ghost use Rattle.desk_flights.specs.FlightViews.{FlightView, facts_in};
    ghost use Rattle.filing_machine.specs.Runs.{IsOnRun};

    ghost Value = { FlightView };

    ghost view = { λ f. record {
      ticket = f.ticket;
      program = f.program.value;
      message = f.message.items;
      case = f.case;
      day = f.day;
      machine = f.machine;
    } };

    ghost invariant = { λ f. IsOnRun f.program.value (facts_in f.case) f.machine
        × IsCaptureDay f.day };
}

impl Flight {
    /// A capture that begins with a ticket, for a message of at most 8,388,608 octets, on a day of 1970 to 2199. It has
    /// made no step. The only error is out of memory (99).
    pub fn begin(
        alloc: Global,
        ticket: u32,
        program: Rc<Verified>,
        message: Vec<u8>,
        paths: PinnedPaths,
        day: Date,
    ) -> Result<Flight, AllocError>
        requires length { length message.items ≤ MAX_MESSAGE_OCTETS }
        requires day { IsCaptureDay day }
        ensures { IfOk result (HoldsBegun ticket program.value message.items paths day) }
    {
        let machine = Machine::start(alloc, &*program)?;
        let case = WholeCase::from_message(alloc, message.as_slice(), paths)?;
        Ok(Flight {
            ticket,
            program,
            message,
            case,
            day,
            machine,
        })
    }

    /// The ticket of the capture.
    pub fn ticket(&self) -> u32
        ensures { result ≡ self.now.ticket }
    {
        self.ticket
    }

    /// The pinned program.
    pub fn program(&self) -> &Verified
        ensures { result.now ≡ self.now.program }
    {
        &*self.program
    }

    /// The octets of the message.
    pub fn message(&self) -> &[u8]
        ensures { result.now ≡ self.now.message }
    {
        self.message.as_slice()
    }

    /// The day on which the capture began.
    pub fn day(&self) -> Date
        ensures value { result ≡ self.now.day }
        ensures capture { IsCaptureDay result }
    {
        self.day
    }

    /// The machine that runs the program.
    pub fn machine(&self) -> &Machine
        ensures value { result.now ≡ self.now.machine }
        ensures stands { IsOnRun self.now.program (facts_in self.now.case) self.now.machine }
    {
        &self.machine
    }

    /// Whether the run has come to its end.
    pub fn is_ended(&self) -> bool
        ensures machine { result ≡ has_ended self.now }
        ensures flight { TellsEnd self.now result }
    {
        self.machine.is_ended()
    }

    /// How many steps the run has made so far, and whether it has come to its end.
    pub fn turns_made(&self) -> Turn
        ensures { TellsTurns self.now result }
    {
        Turn {
            steps: self.machine.steps_done(),
            ended: self.machine.is_ended(),
        }
    }

    /// The run makes `count` more steps, or fewer where it comes to its end. The only error is out of memory (99),
    /// which keeps the steps that were made before.
    pub fn turn(&mut self, count: u32) -> Result<(), AllocError>
        ensures ok { OnOk result (IsGranted self.old count self.new) }
        ensures err { OnErr result (StopsShort self.old count self.new) }
    {
        make_steps(&mut self.machine, &*self.program, &self.case, count)
    }

    /// The outcome of the capture, which depends only on the state at its beginning: the classes in byte order, each
    /// once, and the fault. The caller ensures that the run has come to its end. The only error is out of memory (99).
    pub fn outcome(&self) -> Result<Outcome, AllocError>
        requires { has_ended self.now ≡ true }
        ensures alone { IfOk result (λ o. IsOutcome self.now o) }
        ensures in_order { IfOk result (λ o. IsIncreasing o.classes) }
        ensures classes { IfOk result (λ o. All (IsOpenAtBegin self.now) o.classes) }
    {
        self.machine.outcome()
    }
}

/// Makes `count` steps of a run, or fewer where it ends.
fn make_steps<C: Case>(
    machine: &mut Machine,
    program: &Verified,
    case: &C,
    count: u32,
) -> Result<(), AllocError>
    requires { IsOnRun program.now (C.facts case.now) machine.old }
    ensures stands { IsOnRun program.now (C.facts case.now) machine.new }
    ensures ok { OnOk result (HasMade machine.old count machine.new) }
    ensures err { OnErr result (IsStopped program.now machine.old count machine.new) }
{
    for _ in 0..count {
        if machine.is_ended() {
            break;
        }
        machine.step(program, case)?;
    }
    Ok(())
}
