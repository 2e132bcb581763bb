//! Dry runs: the outcome of a script or an image for a message, with nothing stored. A script is compiled in `program`
//! of `filing_gen`, and an image is run in `machine` of `filing_machine`.

ghost use Rattle.std.specs.Prelude.{◌≡◌, ◌≢◌, ◌≤◌, ◌↔◌, ℕ, List, [], length, Err, None, IfOk, IfErr};
ghost use Rattle.sieve_syntax.specs.View.{tree_of};
ghost use Rattle.sieve_meaning.specs.Reading.{program_of};
ghost use Rattle.sieve_meaning.specs.TooHeavy.{IsTooHeavy};
ghost use Rattle.sieve_library.specs.Libraries.{NamedScript};
ghost use Rattle.filing_flow.specs.Compiled.{IsCompiled};
ghost use Rattle.filing_gen.specs.declared.fault.GenFault.TheVariants.{TooLarge};
ghost use Rattle.filing_table.specs.Ends.{HasOutcome};
ghost use Rattle.desk_commands.specs.Limits.{greatest_script};
ghost use Rattle.desk_commands.specs.Parts.{IsGood};
ghost use Rattle.desk_commands.specs.Scripts.{library, meanings_of};
ghost use Rattle.desk_commands.specs.declared.fault.DeskFault.TheVariants.{NoMemory};
ghost use Rattle.desk_officers.specs.Filed.{IsImageNow};
ghost use Rattle.filing_desk.specs.DryRuns.{IsOutcomeOf};

use desk_commands::DeskFault;
use desk_officers::Officers;
use filing_gen::{GenFault, compile_with};
use filing_machine::{Case, run};
use filing_table::a_run_ends_once;
use filing_verify::Verified;
use sieve_check::Checked;
use sieve_library::{Shelf, Shelves};
use sieve_meaning::{Outcome, RunFault, fault_alone};
use std::alloc::{AllocError, Global};

/// The outcome of an image's run in a case, without the number of its steps.
pub(crate) fn run_image<C: Case>(
    alloc: Global,
    program: &Verified,
    case: &C,
) -> Result<Outcome, AllocError>
    ensures { IfOk result (λ o. (n : ℕ) × HasOutcome program.now (C.facts case.now) n o) }
{
    let ran = run(alloc, program, case)?;
    Ok(ran.outcome)
}

/// The outcome of a script in a case, by the run of its image, which is kept.
pub(crate) fn outcome_of_image<C: Case>(
    alloc: Global,
    image: &Verified,
    case: &C,
) -> Result<Outcome, AllocError>
    ensures { (globals : List NamedScript) (text : List ℕ) → IsImageNow globals text image.now
        → IfOk result (IsOutcomeOf globals text (C.facts case.now)) }
{
    a_run_ends_once();
    run_image(alloc, image, case)
}

/// The image of a script, which can include these global scripts and no others. Refused as `compile_with` does.
fn image_of(alloc: Global, globals: &Shelf, script: &Checked) -> Result<Verified, GenFault>
    ensures compiled { IfOk result (IsCompiled (library [] (meanings_of globals.now)) None
        (program_of (tree_of script.now.script))) }
    ensures too_large { result ≢ Err GenFault.NoMemory → result ≡ Err TooLarge
        ↔ IsTooHeavy (library [] (meanings_of globals.now)) None
        (program_of (tree_of script.now.script)) }
{
    let personal = Shelf::new(alloc);
    let shelves = Shelves {
        personal: &personal,
        global: globals,
    };
    compile_with(alloc, script, None, shelves)
}

/// The outcome of an image's run in a case. The image is kept for its text.
fn outcome_and_keep<C: Case>(
    alloc: Global,
    officers: &mut Officers,
    text: &[u8],
    image: Verified,
    case: &C,
) -> Result<Outcome, AllocError>
    requires { IsImageNow officers.old.globals text.now image }
    ensures outcome { IfOk result
        (IsOutcomeOf officers.old.globals text.now (C.facts case.now)) }
    ensures same { officers.new ≡ officers.old }
{
    let outcome = outcome_of_image(alloc, &image, case)?;
    officers.keep_filed(text, image);
    Ok(outcome)
}

/// The outcome of a script in a case: that of the run of its image, or a fault where the script is too heavy for one.
/// The script can include the global scripts, and no others. Its image is kept for its text.
pub(crate) fn outcome_of<C: Case>(
    alloc: Global,
    officers: &mut Officers,
    text: &[u8],
    script: &Checked,
    case: &C,
) -> Result<Outcome, DeskFault>
    requires short { length text.now ≤ greatest_script }
    requires good { IsGood text.now (tree_of script.now.script) }
    ensures outcome { IfOk result
        (IsOutcomeOf officers.old.globals text.now (C.facts case.now)) }
    ensures refused { IfErr result (λ f. f ≡ NoMemory) }
    ensures same { officers.new ≡ officers.old }
{
    match image_of(alloc, officers.globals(), script) {
        Ok(image) => {
            let outcome = outcome_and_keep(alloc, officers, text, image, case)?;
            Ok(outcome)
        }
        Err(GenFault::TooLarge) => {
            let outcome = fault_alone(alloc, RunFault::TooHeavy)?;
            Ok(outcome)
        }
        Err(GenFault::NoMemory) => Err(DeskFault::NoMemory),
    }
}
