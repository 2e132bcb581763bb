//! The machine that runs verified programs.

ghost use Rattle.std.specs.Prelude.{◌≡◌, ◌≤◌, ◌+◌, IfOk, IsOk, IfSome, OnErr, OnOk, is_some, true};
ghost use Rattle.std.specs.List.{AllByRecursion};
ghost use Rattle.filing_image.specs.Program.{Program};
ghost use Rattle.sieve_meaning.specs.Case.{Facts};
ghost use Rattle.filing_table.specs.Machine.{At, step, start};
ghost use Rattle.filing_table.specs.Ends.{HasOutcome};
ghost use Rattle.filing_machine.specs.Runs.{run_view, IsOnRun, IsModestAt, Leaves};
ghost use Rattle.filing_machine.specs.StateViews.{state, is_ended, InCase};
ghost use Rattle.filing_machine.specs.declared.state.Progress.TheVariants.{Going};
ghost use Rattle.filing_machine.specs.Tops.{top_of_stack, any_on_top, value_matches};

use crate::act::act;
use crate::calls::Calls;
use crate::fields::first_match;
use crate::stack::Stack;
use crate::state::{Item, Progress, RunState};
use crate::top::Top;
use class_paths::Paths;
use filing_verify::Verified;
use mail_case::Case;
use sieve_meaning::{Outcome, outcome_at_end};
use std::alloc::{AllocError, Global};
use std::marker::Model;

/// A run of a verified program. Contracts see its state, how far it has come, and the number of its steps so far.
#[derive(Drop)]
pub struct Machine {
    alloc: Global,
    at: RunState,
    progress: Progress,
    steps: u64,
}

impl Model for Machine {
    ghost use Rattle.filing_machine.specs.Runs.{Snapshot};

    ghost Value = { Snapshot };

    ghost view = { λ m. record { at = m.at; progress = m.progress; steps = m.steps } };
}

impl Machine {
    /// A machine before the first instruction of a program, with nothing done. It reserves the whole stack, and room for
    /// 256 places to return to. The program is only for the contract (`stands`). The only error is a refused allocation.
    pub fn start(alloc: Global, _program: &Verified) -> Result<Machine, AllocError>
        ensures start { IfOk result (λ m. (c : Facts) → run_view c m ≡ At start) }
        ensures fresh { IfOk result (λ m. m.steps ≡ 0) }
        ensures running { IfOk result (λ m. m.progress ≡ Going) }
        ensures stands { IfOk result (λ m. (c : Facts) → IsOnRun _program.now c m) }
    {
        let stack = Stack::new(alloc)?;
        let at = RunState {
            place: 0,
            stack,
            filed: Paths::new(alloc),
            kept: false,
            cancelled: false,
            marks: [false; 64],
            calls: Calls::new(),
        };
        Ok(Machine {
            alloc,
            at,
            progress: Progress::Going,
            steps: 0,
        })
    }

    /// Executes one instruction. The machine must not have ended, and must be in the run of this program in this case:
    /// it was started with the program, and stepped with these two alone. The only error is a refused allocation, which
    /// comes at `Values`, `Join` and `File` alone; the machine is then unchanged.
    pub fn step<C: Case>(&mut self, program: &Verified, case: &C) -> Result<(), AllocError>
        requires running { self.old.progress ≡ Going }
        requires stands { IsOnRun program.now (C.facts case.now) self.old }
        ensures stands { IsOnRun program.now (C.facts case.now) self.new }
        ensures step { OnOk result (run_view (C.facts case.now) self.new ≡
            step program.now (C.facts case.now) (run_view (C.facts case.now) self.old)) }
        ensures count { OnOk result (self.new.steps ≡ self.old.steps + 1) }
        ensures budget { self.new.steps ≤ program.now.budget }
        ensures err { OnErr result (self.new ≡ self.old) }
        ensures modest { IsModestAt program.now self.old.at.place → IsOk result }
    {
        let image = program.image();
        let operation = image.code()[self.at.place];
        self.progress = act(self.alloc, operation, image, case, &mut self.at)?;
        self.steps += 1;
        Ok(())
    }

    /// Whether the run has ended, with or without a fault.
    pub fn is_ended(&self) -> bool
        ensures { result ≡ is_ended self.now.progress }
    {
        matches!(self.progress, Progress::Ended(_))
    }

    /// The program counter: the place of the next instruction, or of the last one once the run has ended.
    pub fn place(&self) -> usize
        ensures { result ≡ self.now.at.place }
    {
        self.at.place
    }

    /// The topmost entry of the stack; none where the stack is empty.
    pub fn top(&self) -> Option<Top>
        ensures { (c : Facts) → result ≡ top_of_stack (state c self.now.at).stack }
    {
        match self.at.stack.top()? {
            Item::Truth(truth) => Some(Top::Truth(*truth)),
            Item::Fields(fields) => Some(Top::Values(fields.count())),
            Item::Count(count) => Some(Top::Number(*count)),
        }
    }

    /// The first field of the list on the top of the stack whose value matches a key, by its place in the header,
    /// counted from 0. None where no value matches, or where no list is on the top. `comparison` is the first operand
    /// of a `Match`. The machine must be in a run in this case.
    pub fn first_match<C: Case>(&self, case: &C, comparison: u8, key: &[u8]) -> Option<usize>
        requires { AllByRecursion (InCase (C.facts case.now)) self.now.at.stack }
        ensures matches { IfSome result
            (λ f. value_matches (C.facts case.now) comparison key.now f ≡ true) }
        ensures found { is_some result
            ≡ any_on_top comparison key.now (state (C.facts case.now) self.now.at).stack }
    {
        match self.at.stack.top()? {
            Item::Fields(fields) => first_match(case, fields, comparison, key),
            _ => None,
        }
    }

    /// The number of steps that the run has made.
    pub fn steps_done(&self) -> u64
        ensures { result ≡ self.now.steps }
    {
        self.steps
    }

    /// What the run captured. The machine must have ended. The only error is a refused allocation.
    pub fn outcome(&self) -> Result<Outcome, AllocError>
        requires { is_ended self.now.progress ≡ true }
        ensures leaves { IfOk result (λ o. Leaves self.now o) }
        ensures of_run { IfOk result (λ o. (p : Program) (c : Facts) → IsOnRun p c self.now →
            HasOutcome p c self.now.steps o) }
    {
        let Progress::Ended(fault) = self.progress else {
            unreachable!()
        };
        let at = &self.at;
        outcome_at_end(self.alloc, fault, &at.filed, at.kept, at.cancelled)
    }
}

/// A run that has come to its end.
#[derive(Drop)]
pub struct EndedRun {
    /// What it captured.
    pub outcome: Outcome,
    /// The number of steps that it made.
    pub steps: u64,
}

/// Runs a program in a case to its end. Answers what the run captures, and its length in steps, which is within the
/// budget. The only error is a refused allocation.
pub fn run<C: Case>(alloc: Global, program: &Verified, case: &C) -> Result<EndedRun, AllocError>
    ensures outcome { IfOk result
        (λ r. HasOutcome program.now (C.facts case.now) r.steps r.outcome) }
    ensures budget { IfOk result (λ r. r.steps ≤ program.now.budget) }
{
    let mut machine = Machine::start(alloc, program)?;
    while !machine.is_ended() {
        machine.step(program, case)?;
    }
    let outcome = machine.outcome()?;
    Ok(EndedRun {
        outcome,
        steps: machine.steps_done(),
    })
}
