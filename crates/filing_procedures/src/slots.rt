//! The slots of the scripts that can be included: a script is marked at its slot when it is entered.

ghost use Rattle.std.specs.Prelude.{◌≡◌, ◌<◌, ◌≤◌, ℕ, IfSome, option_map};
ghost use Rattle.sieve_meaning.specs.Scripts.{script_of};
ghost use Rattle.sieve_library.specs.BorrowedShelves.{scripts_of, library_on};
ghost use Rattle.filing_procedures.specs.Slots.{HasSlots, IsAt, slots_on};
ghost use Rattle.sieve_library.specs.Libraries.{program_in, found_script};

use sieve_check::Checked;
use sieve_library::{MAX_SCRIPTS, Shelves};
use sieve_meaning::{Location, ScriptName};

/// The script of a name, with its slot, which is below 64; no two scripts have the same slot. None where there is no
/// such script.
pub fn find_script<'a>(
    shelves: Shelves<'a>,
    script: &ScriptName<'_>,
) -> Option<(usize, &'a Checked)>
    ensures script { option_map (λ f. f.1.now.script) result
        ≡ found_script (scripts_of shelves.entry) (script_of script.now) }
    ensures slot { IfSome result (λ f. f.0 ≡ slots_on shelves.entry (script_of script.now)) }
    ensures inside { IfSome result (λ f. f.0 < 64) }
{
    match script.location {
        Location::Personal => shelves.personal.find(script.name),
        Location::Global => match shelves.global.find(script.name) {
            Some((place, script)) => Some((MAX_SCRIPTS + place, script)),
            None => None,
        },
    }
}

/// The script of a slot; none where no script has it.
pub fn script_at<'a>(shelves: Shelves<'a>, slot: usize) -> Option<&'a Checked>
    ensures { IsAt (scripts_of shelves.entry) slot
        (option_map (λ c. program_in c.now.script) result) }
{
    let personal = shelves.personal.at(slot);
    if slot < MAX_SCRIPTS {
        return personal;
    }
    shelves.global.at(slot - MAX_SCRIPTS)
}

/// The smallest number of slots that is enough for the scripts: 0 where there is no script, and at most 64.
pub fn slot_count(shelves: Shelves<'_>) -> u16
    ensures enough { HasSlots (library_on shelves.entry) (slots_on shelves.entry) result }
    ensures fewest { (n : ℕ) → HasSlots (library_on shelves.entry) (slots_on shelves.entry) n
        → result ≤ n }
{
    let personal = shelves.personal.len();
    let global = shelves.global.len();
    if global == 0 {
        personal as u16
    } else {
        (MAX_SCRIPTS + global) as u16
    }
}
