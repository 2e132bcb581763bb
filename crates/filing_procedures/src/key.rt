//! What tells procedures apart.

ghost use Rattle.std.specs.Prelude.{◌≡◌, ℕ, map};
ghost use Rattle.sieve_meaning.specs.Procedures.{Procedure, is_shared};
ghost use Rattle.sieve_meaning.specs.Scripts.{script_of};
ghost use Rattle.sieve_library.specs.BorrowedShelves.{scripts_of};
ghost use Rattle.sieve_library.specs.Libraries.{library_of};
ghost use Rattle.filing_procedures.specs.Keys.{is_active, IsEnteredKey};
ghost use Rattle.filing_procedures.specs.Sets.{has};

use crate::reach::Reach;
use crate::slot_set::SlotSet;
use crate::slots::find_script;
use sieve_library::Shelves;
use sieve_meaning::ScriptName;

/// What is the same for all includes that share a procedure, by what the script reaches.
#[derive(Clone, Copy, Drop)]
pub struct Key {
    /// The slot of the script; the main script has none.
    pub slot: Option<usize>,
    /// How many further scripts may be active.
    pub left: usize,
    /// The slots of the active scripts that can be included.
    pub active: SlotSet,
}

/// The slots of those of these active scripts that can be included.
pub fn slots_of_active(shelves: Shelves<'_>, chain: &[ScriptName<'_>]) -> SlotSet
    ensures { (k : ℕ)
        → has result k ≡ is_active (scripts_of shelves.entry) (map script_of chain.now) k }
{
    let mut active = SlotSet::empty();
    for script in chain {
        if let Some((slot, _)) = find_script(shelves, script) {
            active = active.with(slot);
        }
    }
    active
}

/// Whether includes with these keys share a procedure: they enter the same script, as many scripts are active, and the
/// script reaches the same of these.
pub fn are_shared(reach: &Reach<'_>, key: Key, other: Key) -> bool
    ensures { let l = scripts_of reach.now.shelves in
        (p q : Procedure) → IsEnteredKey l key p → IsEnteredKey l other q
        → result ≡ is_shared (library_of l) p q }
{
    let (Some(slot), Some(other_slot)) = (key.slot, other.slot) else {
        return false;
    };
    if slot != other_slot || key.left != other.left {
        return false;
    }
    let reached = reach.reached(slot);
    key.active.meet(reached).is_same(other.active.meet(reached))
}
