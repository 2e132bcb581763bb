//! A run, and the record of its steps.

ghost use Rattle.std.specs.Prelude.{◌≡◌, ℕ, length, slice_get, option_copied, Some, true, is_some, IfOk, IfSome};
ghost use Rattle.std.specs.List.{AllByRecursion};
ghost use Rattle.filing_table.specs.Ends.{HasOutcome};
ghost use Rattle.filing_machine.specs.StateViews.{state, InCase};
ghost use Rattle.filing_machine.specs.StepRecords.{finds, is_found_by, IsStepRecord};
ghost use Rattle.filing_machine.specs.declared.trace.Step.{Step as StepOf};

use crate::machine::Machine;
use crate::top::Top;
use filing_image::{Image, Operation};
use filing_verify::Verified;
use mail_case::Case;
use sieve_meaning::Outcome;
use std::alloc::{AllocError, Global};

/// The record of one step of a run.
#[derive(Clone, Copy)]
pub struct Step {
    /// The place of its instruction in the code.
    pub place: usize,
    /// The topmost entry of the stack after it; none where the stack is empty.
    pub top: Option<Top>,
    /// For a `Match` that is true, the first field whose value matches the key, by its place in the header, counted
    /// from 0; for any other step none.
    pub matched: Option<usize>,
}

/// A run from its beginning to its end.
#[derive(Drop)]
pub struct Trace {
    pub outcome: Outcome,
    /// The steps of the run, the first one first.
    pub steps: Vec<Step>,
}

/// The operation at a place of the code, if there is one.
fn operation_at(image: &Image, place: usize) -> Option<Operation>
    ensures { result ≡ slice_get image.now.code place }
{
    image.code().get(place).copied()
}

/// The text at a place among the texts, if there is one.
fn text_at(image: &Image, place: usize) -> Option<&[u8]>
    ensures { option_copied result ≡ slice_get image.now.texts place }
{
    if place < image.text_count() {
        Some(image.text(place))
    } else {
        None
    }
}

/// The field that decides the next instruction, where that is a `Match` that is true.
fn matched_field<C: Case>(image: &Image, case: &C, machine: &Machine) -> Option<usize>
    requires { AllByRecursion (InCase (C.facts case.now)) machine.now.at.stack }
    ensures found { is_some result ≡ finds image.now (state (C.facts case.now) machine.now.at) }
    ensures matches { IfSome result
        (λ f. is_found_by image.now (C.facts case.now) machine.now.at.place f ≡ true) }
{
    let Operation::Match(comparison, key) = operation_at(image, machine.place())? else {
        return None;
    };
    let key = text_at(image, usize::from(key))?;
    machine.first_match(case, comparison, key)
}

/// Runs a program in a case to its end, as `run` does and with the same outcome, and records each step.
/// The only error is a refused allocation.
pub fn trace_run<C: Case>(alloc: Global, program: &Verified, case: &C) -> Result<Trace, AllocError>
    ensures outcome { IfOk result (λ t.
        HasOutcome program.now (C.facts case.now) (length t.steps.items) t.outcome) }
    ensures told { IfOk result (λ t. (k : ℕ) (s : StepOf) → slice_get t.steps.items k ≡ Some s →
        IsStepRecord program.now (C.facts case.now) k s) }
{
    let mut machine = Machine::start(alloc, program)?;
    let mut steps = Vec::new(alloc);
    while !machine.is_ended() {
        let place = machine.place();
        let matched = matched_field(program.image(), case, &machine);
        machine.step(program, case)?;
        let top = machine.top();
        steps.push(Step {
            place,
            top,
            matched,
        })?;
    }
    let outcome = machine.outcome()?;
    Ok(Trace { outcome, steps })
}
