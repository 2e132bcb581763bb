//! Images of scripts that are too heavy for code in which each include has a copy of its script: each included script is
//! a procedure.

ghost use Rattle.std.specs.Prelude.{◌≡◌, ◌≢◌, ◌↔◌, ◌<◌, ◌≤◌, length, Err, IfOk};
ghost use Rattle.sieve_meaning.specs.Procedures.{most_procedures};
ghost use Rattle.sieve_meaning.specs.Program.{Commands};
ghost use Rattle.sieve_meaning.specs.TooHeavy.{IsTooHeavy};
ghost use Rattle.sieve_meaning.specs.Weight.{greatest_weight, linked_weight};
ghost use Rattle.sieve_library.specs.BorrowedShelves.{scripts_of, library_on};
ghost use Rattle.filing_procedures.specs.ProcedureCode.{AreProcedures};
ghost use Rattle.filing_gen.specs.Correct.{NamesOnce};
ghost use Rattle.filing_flow.specs.Compiled.{IsCompiled};
ghost use Rattle.filing_gen.specs.declared.fault.GenFault.TheVariants.{NoMemory, TooLarge};
ghost use Rattle.sieve_library.specs.Libraries.{program_in};
ghost use Rattle.filing_gen.specs.Scopes.{main_name, ForHeavyMain};

use crate::chain::MainScript;
use crate::emit_procedures::emit_procedures;
use crate::fault::GenFault;
use crate::finding::Scope;
use crate::paths::{main_path, shared_weight};
use crate::program::image_of;
use filing_procedures::{Procedure, Reach, procedures, slot_count};
use filing_verify::Verified;
use sieve_syntax::Script;
use std::alloc::Global;

/// The image of a script that has these procedures. `TooLarge` where their code weighs more than 60,000, or a path
/// through it more than 1,000,000.
fn build_procedures<'a>(
    alloc: Global,
    reach: &Reach<'a>,
    main: MainScript<'a>,
    procedures: Vec<Procedure<'a>>,
) -> Result<Verified, GenFault>
    requires are { (x : Commands)
        × AreProcedures (scripts_of reach.now.shelves) (main_name main) x procedures.items }
    requires few { length procedures.items ≤ most_procedures }
    ensures compiled { ForHeavyMain reach.now.shelves main.entry procedures.entry.items
        (λ lib known_as script. IfOk result (IsCompiled lib known_as script)) }
    ensures once { IfOk result (λ v. NamesOnce v) }
    ensures too_large { ForHeavyMain reach.now.shelves main.entry procedures.entry.items
        (λ lib known_as script. result ≢ Err NoMemory → result ≡ Err TooLarge
        ↔ IsTooHeavy lib known_as script) }
{
    let Some(weight) = shared_weight(procedures.as_slice()) else {
        return Err(GenFault::TooLarge);
    };
    let Some(path) = main_path(alloc, &*reach, main, procedures.as_slice())? else {
        return Err(GenFault::TooLarge);
    };
    let (out, first_places) = emit_procedures(alloc, &*reach, main, procedures.as_slice(), weight)?;
    let slots = slot_count(reach.shelves);
    let image = image_of(path, slots, out, Some(first_places))?;
    Ok(image)
}

/// The image of a script whose weight is above 60,000, by what each script that it can include reaches.
fn build_reached<'a>(
    alloc: Global,
    reach: &Reach<'a>,
    script: &'a Script,
    main: MainScript<'a>,
) -> Result<Verified, GenFault>
    requires { greatest_weight
        < linked_weight (library_on reach.now.shelves) (main_name main) (program_in script.now) }
    ensures compiled { IfOk result
        (IsCompiled (library_on reach.now.shelves) (main_name main.entry) (program_in script.now)) }
    ensures once { IfOk result (λ v. NamesOnce v) }
    ensures too_large { result ≢ Err NoMemory → result ≡ Err TooLarge
        ↔ IsTooHeavy (library_on reach.now.shelves) (main_name main.entry) (program_in script.now) }
{
    match procedures(alloc, reach, script, main.known_as)? {
        None => Err(GenFault::TooLarge),
        Some(procedures) => build_procedures(alloc, reach, main, procedures),
    }
}

/// The image of a script whose weight is above 60,000. `TooLarge` where there are more than 256 procedures, where their
/// code weighs more than 60,000, or a path through it more than 1,000,000.
pub fn build_shared<'a>(
    alloc: Global,
    script: &'a Script,
    scope: Scope<'a>,
) -> Result<Verified, GenFault>
    requires { greatest_weight
        < linked_weight (library_on scope.shelves) (main_name scope.main) (program_in script.now) }
    ensures compiled { IfOk result (IsCompiled (library_on scope.entry.shelves)
        (main_name scope.entry.main) (program_in script.now)) }
    ensures once { IfOk result (λ v. NamesOnce v) }
    ensures too_large { result ≢ Err NoMemory → result ≡ Err TooLarge ↔ IsTooHeavy
        (library_on scope.entry.shelves) (main_name scope.entry.main) (program_in script.now) }
{
    let reach = Reach::of(alloc, scope.shelves)?;
    build_reached(alloc, &reach, script, scope.main)
}
