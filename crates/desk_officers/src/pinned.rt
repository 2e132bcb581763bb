//! What is pinned for a capture.

ghost use Rattle.std.specs.Prelude.{◌≡◌, IfOk};
ghost use Rattle.sieve_library.specs.BorrowedShelves.{scripts_of};
ghost use Rattle.desk_commands.specs.Pinning.{PinsChoice, script as chosen_script, script_if, one_stop};
ghost use Rattle.desk_commands.specs.Scripts.{meanings_of, script_at};
ghost use Rattle.desk_officers.specs.Ends.{IsEnd, alone};
ghost use Rattle.desk_officers.specs.Register.{library_in, meaning_of};

use filing_gen::{GenFault, compile_with};
use filing_image::{Image, Operation};
use filing_verify::Verified;
use sieve_check::Checked;
use sieve_library::{Shelf, Shelves};
use sieve_meaning::RunFault;
use std::alloc::{AllocError, Global};

/// The program of one instruction that ends the run.
fn single(alloc: Global, operation: Operation) -> Result<Verified, AllocError>
    requires { IsEnd operation }
    ensures { IfOk result (λ v. v ≡ alone operation) }
{
    let code = vec![in alloc; operation]?;
    match Image::from_code(1, Vec::new(alloc), Vec::new(alloc), 0, None, code) {
        Ok(image) => Ok(Verified::known(image)),
        Err(_) => unreachable!(),
    }
}

/// What is pinned where no program is set: one `Stop`.
pub(crate) fn pin_nothing(alloc: Global) -> Result<Verified, AllocError>
    ensures { IfOk result (λ v. v ≡ one_stop) }
{
    single(alloc, Operation::Stop)
}

/// What is pinned for a script with its name: its image, or one `Fault` where it is too heavy.
fn pin_script(
    alloc: Global,
    name: &[u8],
    script: &Checked,
    shelves: Shelves<'_>,
) -> Result<Verified, AllocError>
    ensures { IfOk result (λ v. PinsChoice (chosen_script name.now (meaning_of script.now.script))
        (library_in (scripts_of shelves.entry)) v) }
{
    match compile_with(alloc, script, Some(name), shelves) {
        Ok(program) => Ok(program),
        Err(GenFault::TooLarge) => single(alloc, Operation::Fault(RunFault::TooHeavy.number())),
        Err(GenFault::NoMemory) => Err(AllocError),
    }
}

/// What is pinned for the script that has the name now, or one `Stop` where there is none.
pub(crate) fn pin_named(
    alloc: Global,
    name: &[u8],
    shelves: Shelves<'_>,
) -> Result<Verified, AllocError>
    ensures { let scripts = scripts_of shelves.entry in
        IfOk result
        (λ v. PinsChoice (script_if name.now (script_at name.now (meanings_of scripts.personal)))
        (library_in scripts) v) }
{
    match shelves.personal.get(name) {
        Some(script) => pin_script(alloc, name, script, shelves),
        None => pin_nothing(alloc),
    }
}
