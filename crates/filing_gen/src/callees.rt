//! The includes of a procedure, and the procedures that they enter.

ghost use Rattle.std.specs.Prelude.{◌≡◌, ◌<◌, ℕ, List, length, map, IfOk};
ghost use Rattle.std.specs.List.{All};
ghost use Rattle.sieve_library.specs.BorrowedShelves.{scripts_of};
ghost use Rattle.filing_procedures.specs.Keys.{IsKeyOf};
ghost use Rattle.filing_procedures.specs.ProcedureCode.{procedure_of, IsEntered};
ghost use Rattle.filing_gen.specs.Numbers.{IsNumber, AreNumbers};

use crate::finding::{Finding, Scope, find};
use filing_procedures::{Procedure, Reach, number_of, slot_count};
use sieve_meaning::{Include, RunFault};
use std::alloc::{AllocError, Global};

/// The number, among the later procedures, of the one that an include of the script with this slot enters.
fn number_by_slot(
    reach: &Reach<'_>,
    procedure: &Procedure<'_>,
    later: &[Procedure<'_>],
    slot: usize,
) -> Option<usize>
    requires left { 0 < procedure.now.key.left }
    requires slot { slot < 64 }
    requires key { IsKeyOf (scripts_of reach.now.shelves) procedure.now.key
        (procedure_of procedure.now) }
    requires entered { All (IsEntered (scripts_of reach.now.shelves)) later.now }
    ensures { IsNumber (scripts_of reach.now.shelves) (map procedure_of later.now)
        (procedure_of procedure.now) slot result }
{
    number_of(reach, later, procedure.key_of_entry(slot))
}

/// For each slot the number, among the later procedures, of the one that an include of its script enters. Where no
/// further script may be active, there are none. The only error is a refused allocation.
pub fn numbers_by_slot(
    alloc: Global,
    reach: &Reach<'_>,
    procedure: &Procedure<'_>,
    later: &[Procedure<'_>],
) -> Result<Vec<Option<usize>>, AllocError>
    requires key { IsKeyOf (scripts_of reach.now.shelves) procedure.now.key
        (procedure_of procedure.now) }
    requires entered { All (IsEntered (scripts_of reach.now.shelves)) later.now }
    ensures { IfOk result (λ v. AreNumbers (scripts_of reach.now.shelves)
        (map procedure_of later.now) (procedure_of procedure.now) v.items) }
{
    if procedure.key.left == 0 {
        return Ok(Vec::new(alloc));
    }
    let count = slot_count(reach.shelves) as usize;
    let mut numbers = Vec::with_capacity(alloc, count)?;
    for slot in 0..count {
        numbers.push(number_by_slot(reach, procedure, later, slot))?;
    }
    Ok(numbers)
}

/// How an include enters a script.
#[derive(Clone, Copy, Drop)]
pub enum Call {
    /// Not at all, since no further script may be active.
    TooDeep,
    /// By a call of the procedure with this number, among those after the caller.
    To(usize),
    /// By a procedure that is not there. This never comes, since there is one for each script that an include enters.
    Missing,
}

/// What an include of a procedure comes to.
#[derive(Clone, Copy, Drop)]
pub enum Inclusion {
    /// It does nothing.
    Pass,
    /// It ends the run with this fault.
    Fault(RunFault),
    /// It enters the script of this slot; under `:once` it does so only where the slot is not set.
    Enter(usize, Call),
}

/// The procedures that the includes of a procedure enter.
#[derive(Clone, Copy, Drop)]
pub struct Callees<'a> {
    pub scope: Scope<'a>,
    pub procedure: &'a Procedure<'a>,
    /// The procedures after it.
    pub later: &'a [Procedure<'a>],
    /// By the slot of a script, the number of the procedure that an include of it enters, among the later ones.
    pub numbers: &'a [Option<usize>],
    ghost numbered: { AreNumbers (scripts_of scope.shelves) (map procedure_of later.now)
        (procedure_of procedure.now) numbers.now },
}

impl Callees<'_> {
    ghost use Rattle.sieve_meaning.specs.Scripts.{include_view};
    ghost use Rattle.filing_gen.specs.Numbers.{number_at};
    ghost use Rattle.filing_gen.specs.Inclusions.{call_of, code_of, path_of, code_of_include, path_of_include, EntersOneOf};

    /// How an include enters the script of a slot.
    fn call(&self, slot: usize) -> Call
        ensures { result
            ≡ call_of self.now.procedure.now.key.left (number_at self.now.numbers.now slot) }
    {
        if self.procedure.key.left == 0 {
            return Call::TooDeep;
        }
        match self.numbers.get(slot) {
            Some(Some(number)) => Call::To(*number),
            Some(None) | None => Call::Missing,
        }
    }

    /// What an include of the procedure comes to.
    pub fn inclusion(&self, include: &Include<'_>) -> Inclusion
        ensures code { (own : ℕ) → code_of_include self.now own (include_view include.now)
            ≡ code_of own include.now.is_once result }
        ensures path { (paths : List ℕ)
            → path_of_include self.now paths (include_view include.now) ≡ path_of paths result }
        ensures within { EntersOneOf (length self.now.later.now) result }
    {
        match find(&self.scope, self.procedure, include) {
            Finding::Pass => Inclusion::Pass,
            Finding::Fault(fault) => Inclusion::Fault(fault),
            Finding::Entry(slot, _) => Inclusion::Enter(slot, self.call(slot)),
        }
    }
}
