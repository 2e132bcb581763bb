//! The code of the includes of a procedure: each marks its script and calls the script's procedure.

ghost use Rattle.std.specs.Prelude.{◌+◌, ◌<◌, ◌^◌, length};
ghost use Rattle.filing_gen.specs.Adds.{EmitsAnywhere};

use crate::callees::{Call, Callees, Inclusion};
use crate::ends::{NO_PLACE, end_block};
use crate::linker::Linker;
use crate::output::{Output, put, put_fault};
use filing_image::Operation;
use sieve_meaning::{Include, RunFault};
use std::alloc::{AllocError, Global};

/// The includes of the procedure with the number `own`.
#[derive(Clone, Copy, Drop)]
pub struct Calls<'a> {
    pub callees: Callees<'a>,
    pub own: usize,
    ghost few: { own + length callees.later.now < 2 ^ 16 },
}

impl Calls<'_> {
    ghost use Rattle.std.specs.Prelude.{OnOk};
    ghost use Rattle.filing_gen.specs.Inclusions.{code_of_call, CallsOneOf};

    /// Writes the entry of the script of a slot: the script is marked, and its procedure is called. It is a fault where
    /// no further script may be active.
    fn emit_call(&self, out: &mut Output, slot: usize, call: Call) -> Result<(), AllocError>
        requires slot { slot < 64 }
        requires call { CallsOneOf (length self.now.callees.later.now) call }
        ensures { OnOk result
            (EmitsAnywhere out.old out.new (code_of_call self.now.own slot call)) }
    {
        match call {
            Call::TooDeep => put_fault(out, RunFault::NestingTooDeep),
            Call::To(number) => {
                put(out, Operation::Mark(slot as u16))?;
                put(out, Operation::Call((self.own + 1 + number) as u16))
            }
            Call::Missing => {
                put(out, Operation::Mark(slot as u16))?;
                put_fault(out, RunFault::NestingTooDeep)
            }
        }
    }
}

impl Linker for Calls<'_> {
    ghost use Rattle.std.specs.Prelude.{map};
    ghost use Rattle.sieve_library.specs.BorrowedShelves.{scripts_of};
    ghost use Rattle.sieve_library.specs.Libraries.{library_of};
    ghost use Rattle.filing_procedures.specs.ProcedureCode.{procedure_of};
    ghost use Rattle.filing_procedures.specs.Slots.{slots_of};
    ghost use Rattle.filing_gen.specs.Scopes.{names_of};
    ghost use Rattle.filing_gen.specs.Procedures.{calling_flow};

    ghost flow_of = { λ s. calling_flow (library_of (scripts_of s.callees.scope.shelves))
        (slots_of (scripts_of s.callees.scope.shelves)) (names_of s.callees.scope.main) s.own
        (map procedure_of s.callees.later.now) (procedure_of s.callees.procedure.now) };

    /// Writes nothing, a fault, or the entry of a script; under `:once` a jump before the entry skips it where the
    /// script is marked.
    fn emit(
        &self,
        _alloc: Global,
        out: &mut Output,
        include: &Include<'_>,
    ) -> Result<(), AllocError> {
        let (slot, call) = match self.callees.inclusion(include) {
            Inclusion::Pass => return Ok(()),
            Inclusion::Fault(fault) => return put_fault(out, fault),
            Inclusion::Enter(slot, call) => (slot, call),
        };
        if !include.is_once {
            return self.emit_call(out, slot, call);
        }
        let start = out.code.len();
        put(out, Operation::Marked(slot as u16))?;
        put(out, Operation::JumpIf(NO_PLACE))?;
        self.emit_call(out, slot, call)?;
        end_block(out, start);
        Ok(())
    }
}
