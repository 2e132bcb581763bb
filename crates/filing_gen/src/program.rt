//! From a checked script to an image that may run.

ghost use Rattle.std.specs.Prelude.{◌≡◌, ◌≢◌, ◌↔◌, ◌+◌, ◌<◌, ◌≤◌, ◌^◌, [], ◌∷◌, Err, IfOk, option_copied};
ghost use Rattle.sieve_meaning.specs.TooHeavy.{IsTooHeavy};
ghost use Rattle.sieve_meaning.specs.Weight.{greatest_weight, linked_weight};
ghost use Rattle.sieve_library.specs.Libraries.{library_of, program_in, listed_program};
ghost use Rattle.filing_image.specs.Program.{Program, list_in, program_from};
ghost use Rattle.filing_verify.specs.Well.{IsWell};
ghost use Rattle.filing_flow.specs.Structure.{size};
ghost use Rattle.filing_flow.specs.Types.{HasType};
ghost use Rattle.filing_gen.specs.BlockCode.{script_flow};
ghost use Rattle.filing_gen.specs.Adds.{HasRoom, IsCode, IsImageOfOutput};
ghost use Rattle.filing_gen.specs.Emission.{commands_long};
ghost use Rattle.filing_gen.specs.Correct.{NamesOnce, FitsImage};
ghost use Rattle.filing_flow.specs.Compiled.{IsCompiled};
ghost use Rattle.filing_gen.specs.declared.fault.GenFault.TheVariants.{NoMemory, TooLarge};
ghost use Rattle.sieve_library.specs.BorrowedShelves.{library_on};
ghost use Rattle.filing_gen.specs.Scopes.{main_name};
ghost use Rattle.filing_gen.specs.Weights.{IsWeightUpTo};

use crate::chain::MainScript;
use crate::emit_commands::emit_commands;
use crate::ends::{NO_PLACE, end_block};
use crate::fault::GenFault;
use crate::finding::Scope;
use crate::levels::Includes;
use crate::linker::Linker;
use crate::output::{Output, put};
use crate::shared::build_shared;
use crate::weight::{MAX_WEIGHT, script_weight};
use filing_image::{Image, Operation};
use filing_procedures::slot_count;
use filing_verify::Verified;
use sieve_check::Checked;
use sieve_library::{Library, Shelves};
use sieve_meaning::Levels;
use sieve_syntax::{Command, Script};
use std::alloc::{AllocError, Global};
use std::marker::PhantomData;

/// Writes a script, and after it the end of the run, to which a `return` of the script jumps. Room for `operations`
/// operations is taken at once.
fn emit_program<L: Linker>(
    alloc: Global,
    linker: &L,
    main: &Vec<Command>,
    operations: u32,
) -> Result<Output, AllocError>
    requires room { commands_long
        (λ i. size (L.flow_of linker.now i)) (listed_program main.now.items) + 1 < 2 ^ 16 }
    requires typed { HasType (script_flow (L.flow_of linker.now) (listed_program main.now.items))
        ([] ∷ []) [] [] }
    ensures { IfOk result
        (λ o. IsCode o (script_flow (L.flow_of linker.now) (listed_program main.now.items))) }
{
    let mut out = Output::with_room(alloc, operations)?;
    emit_commands(alloc, linker, &mut out, main, NO_PLACE)?;
    end_block(&mut out, 0);
    put(&mut out, Operation::Stop)?;
    Ok(out)
}

/// The image of these parts, which its version can spell and which may run. It takes no memory.
fn image_of_parts(
    budget: u32,
    texts: Vec<Vec<u8>>,
    numbers: Vec<u64>,
    slots: u16,
    first_places: Option<Vec<u16>>,
    code: Vec<Operation>,
) -> Verified
    requires { FitsImage
        (program_from budget texts.items numbers.items slots (list_in first_places) code.items) }
    ensures { result ≡
        program_from budget texts.items numbers.items slots (list_in first_places) code.items }
{
    match Image::from_code(budget, texts, numbers, slots, first_places, code) {
        Ok(image) => Verified::known(image),
        Err(_) => unreachable!(),
    }
}

/// The image of what was written, with this budget, number of slots and first places of its procedures. The only error
/// is a refused allocation.
pub fn image_of(
    budget: u32,
    slots: u16,
    mut out: Output,
    first_places: Option<Vec<u16>>,
) -> Result<Verified, AllocError>
    requires few { HasRoom out 0 }
    requires well { (p : Program)
        → IsImageOfOutput budget slots (list_in first_places) out p → IsWell p }
    ensures made { IfOk result (λ v. IsImageOfOutput budget slots (list_in first_places) out v) }
    ensures once { IfOk result (λ v. NamesOnce v) }
{
    let texts = out.texts.into_texts()?;
    let numbers = out.numbers.into_numbers()?;
    out.code.shrink_to_fit();
    Ok(image_of_parts(budget, texts, numbers, slots, first_places, out.code))
}

/// The image of a script of this weight, which is at most 60,000.
fn build(
    alloc: Global,
    script: &Script,
    scope: Scope<'_>,
    weight: u32,
) -> Result<Verified, AllocError>
    requires weight { weight
        ≡ linked_weight (library_on scope.shelves) (main_name scope.main) (program_in script.now) }
    requires small { weight ≤ greatest_weight }
    ensures compiled { IfOk result (IsCompiled (library_on scope.entry.shelves)
        (main_name scope.entry.main) (program_in script.now)) }
    ensures once { IfOk result (λ v. NamesOnce v) }
{
    let includes: Includes<'_, MainScript<'_>, Levels> = Includes {
        scope,
        chain: &scope.main,
        below: PhantomData,
    };
    let slots = slot_count(scope.shelves);
    let out = emit_program(alloc, &includes, &script.commands, weight)?;
    image_of(weight, slots, out, None)
}

/// The weight of a script and all that it includes; none where it is above 60,000.
fn weigh(script: &Script, scope: Scope<'_>) -> Option<u32>
    ensures { IsWeightUpTo greatest_weight (linked_weight (library_on scope.entry.shelves)
        (main_name scope.entry.main) (program_in script.now)) result }
{
    let includes: Includes<'_, MainScript<'_>, Levels> = Includes {
        scope,
        chain: &scope.main,
        below: PhantomData,
    };
    script_weight(&includes, script, MAX_WEIGHT)
}

/// Compiles a checked script, which may be known by a personal name, and the scripts that it includes, to an image that
/// may run. In every case its run ends with the outcome of what the script means. No text and no number stands in it
/// twice. Where the script's weight is at most 60,000, the image has version 1 and the weight as its budget in steps.
/// Otherwise it has version 2: each included script is a procedure, and the budget is the path weight.
///
/// `TooLarge` (5) where the weight is above 60,000 and there are more than 256 procedures, their shared weight is above
/// 60,000, or the path weight is above 1,000,000. `NoMemory` (99) where an allocation was refused. There is no other
/// refusal: an image has room for each script that is not too heavy, and for each of its strings.
///
/// However often a script is included, its strings are stored once. Memory is linear in the octets of the strings of
/// the scripts, and in the weight of the code; the image takes 4 octets for each instruction. Time is that of one
/// look-up of each string each time that the code of its script is written, and linear in the weight of the code times
/// the depth of nested tests. Procedures take time linear in their includes, each of which is compared with at most 256
/// procedures.
pub fn compile(
    alloc: Global,
    main: &Checked,
    known_as: Option<&[u8]>,
    library: &Library,
) -> Result<Verified, GenFault>
    ensures compiled { IfOk result (IsCompiled (library_of library.now)
        (option_copied known_as.entry) (program_in main.now.script)) }
    ensures once { IfOk result (λ v. NamesOnce v) }
    ensures too_large { result ≢ Err NoMemory → result ≡ Err TooLarge ↔ IsTooHeavy
        (library_of library.now) (option_copied known_as.entry) (program_in main.now.script) }
{
    compile_with(alloc, main, known_as, library.shelves())
}

/// Compiles as `compile` does, and with the same refusals, where the scripts that can be included are on two borrowed
/// shelves. Users who each have a personal shelf can thus share the global one, and no script is copied.
pub fn compile_with(
    alloc: Global,
    main: &Checked,
    known_as: Option<&[u8]>,
    shelves: Shelves<'_>,
) -> Result<Verified, GenFault>
    ensures compiled { IfOk result (IsCompiled (library_on shelves.entry)
        (option_copied known_as.entry) (program_in main.now.script)) }
    ensures once { IfOk result (λ v. NamesOnce v) }
    ensures too_large { result ≢ Err NoMemory → result ≡ Err TooLarge ↔ IsTooHeavy
        (library_on shelves.entry) (option_copied known_as.entry) (program_in main.now.script) }
{
    let script = main.script();
    let scope = Scope {
        shelves,
        main: MainScript { known_as },
    };
    match weigh(script, scope) {
        None => build_shared(alloc, script, scope),
        Some(weight) => {
            let image = build(alloc, script, scope, weight)?;
            Ok(image)
        }
    }
}
