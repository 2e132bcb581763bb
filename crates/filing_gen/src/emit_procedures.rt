//! Writes the code of procedures, one after the other.

ghost use Rattle.std.specs.Prelude.{◌+◌, ◌<◌, ◌≤◌, ◌^◌, [], ◌∷◌, length, map, IfOk, OnOk};
ghost use Rattle.std.specs.List.{All};
ghost use Rattle.sieve_meaning.specs.Procedures.{shared_weight, most_procedures};
ghost use Rattle.sieve_meaning.specs.Weight.{greatest_weight};
ghost use Rattle.sieve_library.specs.BorrowedShelves.{scripts_of};
ghost use Rattle.filing_procedures.specs.Keys.{IsKeyOf};
ghost use Rattle.filing_procedures.specs.ProcedureCode.{procedure_of, IsEntered, HaveKeys};
ghost use Rattle.filing_flow.specs.Structure.{size};
ghost use Rattle.filing_flow.specs.Types.{HasType};
ghost use Rattle.filing_gen.specs.Adds.{HasRoom};
ghost use Rattle.filing_gen.specs.SharedCode.{EmitsProcedure, IsSharedCode};
ghost use Rattle.filing_gen.specs.BlockCode.{script_flow};
ghost use Rattle.sieve_library.specs.Libraries.{program_in};
ghost use Rattle.filing_gen.specs.Scopes.{procedure_flow, all_flows};

use crate::callees::{Callees, numbers_by_slot};
use crate::calls::Calls;
use crate::chain::MainScript;
use crate::emit_commands::emit_commands;
use crate::ends::{NO_PLACE, end_block};
use crate::finding::Scope;
use crate::linker::Linker;
use crate::output::{Output, put};
use filing_image::Operation;
use filing_procedures::{Procedure, Reach};
use sieve_syntax::Script;
use std::alloc::{AllocError, Global};

/// Writes the code of a script, and after it the end of its procedure, to which a `return` of the script jumps.
fn emit_script<L: Linker>(
    alloc: Global,
    linker: &L,
    out: &mut Output,
    script: &Script,
) -> Result<(), AllocError>
    requires room { HasRoom out.old
        (size (script_flow (L.flow_of linker.now) (program_in script.now)) + 1) }
    requires typed { HasType (script_flow (L.flow_of linker.now) (program_in script.now))
        ([] ∷ []) [] [] }
    ensures { OnOk result (EmitsProcedure out.old out.new
        (script_flow (L.flow_of linker.now) (program_in script.now))) }
{
    let start = out.code.len();
    emit_commands(alloc, linker, out, &script.commands, NO_PLACE)?;
    end_block(out, start);
    put(out, Operation::Return)
}

/// Writes the code of the procedure with the number `own`.
fn emit_procedure<'a>(
    alloc: Global,
    reach: &Reach<'a>,
    main: MainScript<'a>,
    procedure: &'a Procedure<'a>,
    later: &'a [Procedure<'a>],
    own: usize,
    out: &mut Output,
) -> Result<(), AllocError>
    requires key { IsKeyOf (scripts_of reach.now.shelves) procedure.now.key
        (procedure_of procedure.now) }
    requires entered { All (IsEntered (scripts_of reach.now.shelves)) later.now }
    requires few { own + length later.now < 2 ^ 16 }
    requires room { HasRoom out.old
        (size (procedure_flow reach.now.shelves main own later.now procedure.now) + 1) }
    ensures { OnOk result (EmitsProcedure out.old out.new
        (procedure_flow reach.now.shelves main.entry own later.now procedure.now)) }
{
    let numbers = numbers_by_slot(alloc, reach, procedure, later)?;
    let callees = Callees {
        scope: Scope {
            shelves: reach.shelves,
            main,
        },
        procedure,
        later,
        numbers: numbers.as_slice(),
    };
    emit_script(alloc, &Calls { callees, own }, out, procedure.script)
}

/// The code of all procedures, and the first place of each. Room for `operations` operations is taken at once. The only
/// error is a refused allocation.
pub fn emit_procedures<'a>(
    alloc: Global,
    reach: &Reach<'a>,
    main: MainScript<'a>,
    procedures: &'a [Procedure<'a>],
    operations: u32,
) -> Result<(Output, Vec<u16>), AllocError>
    requires keys { HaveKeys (scripts_of reach.now.shelves) procedures.now }
    requires few { length procedures.now ≤ most_procedures }
    requires light { shared_weight (map procedure_of procedures.now) ≤ greatest_weight }
    ensures { IfOk result
        (λ r. IsSharedCode r.0 r.1.items (all_flows reach.now.shelves main.entry procedures.now)) }
{
    let mut out = Output::with_room(alloc, operations)?;
    let mut first_places = Vec::with_capacity(alloc, procedures.len())?;
    for (own, procedure) in procedures.iter().enumerate() {
        first_places.push(out.code.len() as u16)?;
        let later = &procedures[own + 1..];
        emit_procedure(alloc, reach, main, procedure, later, own, &mut out)?;
    }
    Ok((out, first_places))
}
