//! What an include comes to, as far as it is known when it is compiled (RFC 6609, section 3.2).

ghost use Rattle.std.specs.Prelude.{◌≡◌, ◌<◌, ℕ, option_map, IfSome};
ghost use Rattle.sieve_meaning.specs.Scripts.{include_view, script_of};
ghost use Rattle.filing_gen.specs.IncludeCode.{is_passed as is_passed_of};
ghost use Rattle.filing_gen.specs.Levels.{judgement_by, judgement};
ghost use Rattle.filing_gen.specs.Scopes.{names_of, judgement_of, EntersAt};
ghost use Rattle.sieve_library.specs.BorrowedShelves.{library_on};
ghost use Rattle.filing_procedures.specs.Slots.{slots_on};
ghost use Rattle.sieve_library.specs.Libraries.{program_in};

use crate::chain::{Chain, MainScript};
use filing_procedures::find_script;
use sieve_check::Checked;
use sieve_library::Shelves;
use sieve_meaning::{Include, RunFault};
use sieve_syntax::Script;

/// What all includes of a main script share: the scripts that can be included, and the main one.
#[derive(Clone, Copy, Drop)]
pub struct Scope<'a> {
    pub shelves: Shelves<'a>,
    pub main: MainScript<'a>,
}

/// What an include comes to.
#[derive(Clone, Copy, Drop)]
pub enum Finding<'a> {
    /// It does nothing.
    Pass,
    /// It ends the run with this fault.
    Fault(RunFault),
    /// It enters the script, which has this slot; under `:once` it does so only where the slot is not set.
    Entry(usize, &'a Script),
}

/// Whether an include whose script is missing does nothing: it is `:optional`, or it is `:once` and names the main
/// script, which was entered.
fn is_passed(main: &MainScript<'_>, include: &Include<'_>) -> bool
    ensures { result ≡ is_passed_of (names_of main.now) (include_view include.now) }
{
    (include.is_once && main.contains(&include.script)) || include.is_optional
}

/// What an include comes to, by the script that it finds. Where there is none, the include does nothing if `is_passed`,
/// and else is a fault. Where the script is active, it does nothing under `:once`, and else is a fault.
fn finding_of<'a>(
    found: Option<(usize, &'a Checked)>,
    is_passed: bool,
    is_active: bool,
    is_once: bool,
) -> Finding<'a>
    ensures told { judgement_of result
        ≡ judgement_by (option_map program_in (option_map (λ f. f.1.now.script) found.entry))
        is_passed is_active is_once }
    ensures slot { (slot : ℕ) → IfSome found.entry (λ f. f.0 ≡ slot)
        → IfSome found.entry (λ f. f.0 < 64) → EntersAt result slot }
{
    match found {
        None => {
            if is_passed {
                Finding::Pass
            } else {
                Finding::Fault(RunFault::ScriptMissing)
            }
        }
        Some((slot, checked)) => {
            if !is_active {
                Finding::Entry(slot, checked.script())
            } else if is_once {
                Finding::Pass
            } else {
                Finding::Fault(RunFault::RecursiveInclude)
            }
        }
    }
}

/// What an include comes to, where the scripts of this chain are active.
pub fn find<'a, C: Chain>(scope: &Scope<'a>, chain: &C, include: &Include<'_>) -> Finding<'a>
    ensures told { judgement_of result ≡ judgement (library_on scope.now.shelves)
        (names_of scope.now.main) (C.names chain.now) (include_view include.now) }
    ensures slot { EntersAt result (slots_on scope.now.shelves (script_of include.now.script)) }
{
    finding_of(
        find_script(scope.shelves, &include.script),
        is_passed(&scope.main, include),
        chain.contains(&include.script),
        include.is_once,
    )
}
