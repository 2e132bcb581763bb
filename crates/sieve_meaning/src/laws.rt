//! Laws of the definitions. Each is the contract of a function that does nothing.

ghost use Rattle.std.specs.Prelude.{◌≡◌, ℕ, List, IsTrue, ◌↔◌};
ghost use Rattle.sieve_meaning.specs.Matching.{equals, IsEqualUnder, contains, Contains, covers, Matches};
ghost use Rattle.sieve_meaning.specs.Parts.{PartLaw};
ghost use Rattle.sieve_meaning.specs.Sharing.{ReachLaw, SharingLaw};
ghost use Rattle.sieve_meaning.specs.declared.matching.Comparator.{Comparator};
ghost use Rattle.sieve_meaning.specs.declared.matching.Item.{Item};

use crate::level::{Level, Levels};

/// What is computed for `:is` agrees with the relation.
pub fn equality_is_decided()
    ensures { (c : Comparator) (key value : List ℕ) → IsTrue (equals c key value)
        ↔ IsEqualUnder c key value }
{}

/// What is computed for `:contains` agrees with the relation.
pub fn contains_is_decided()
    ensures { (c : Comparator) (key value : List ℕ) → IsTrue (contains c key value)
        ↔ Contains c key value }
{}

/// What is computed for `:matches` agrees with the relation.
pub fn pattern_is_decided()
    ensures { (c : Comparator) (items : List Item) (value : List ℕ) → IsTrue (covers c items value)
        ↔ Matches c items value }
{}

/// The part that `branches::part_in` gives a command is its role in the program. The command begins branches, continues
/// them, ends them or is passed over.
pub fn parts_are_read()
    ensures { PartLaw }
{}

/// The test whether a script reaches another says what the relation says, where at most sixty-four scripts are there.
pub fn reaching_is_decided()
    ensures { ReachLaw }
{}

/// Scripts that includes share run alike in every case, and weigh the same on every path.
pub fn shared_scripts_are_alike()
    ensures { SharingLaw }
{}

/// Seven further scripts may be active at the level of a main script, as many as in its meaning.
pub fn eight_may_be_active()
    ensures { ⟦<Levels as Level>⟧.depth ≡ 7 }
{}
