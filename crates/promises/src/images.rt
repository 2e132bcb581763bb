//! Promises about images and the scripts that are compiled to them, each the contract of a function without effect.

ghost use Rattle.std.specs.Prelude.{◌≡◌, ◌≢◌, ℕ, List, Some};
ghost use Rattle.sieve_syntax.specs.Tree.{CommandTrees};
ghost use Rattle.sieve_meaning.specs.Case.{Facts};
ghost use Rattle.sieve_meaning.specs.Meaning.{Library};
ghost use Rattle.sieve_meaning.specs.declared.outcome.Outcome.{Outcome};
ghost use Rattle.sieve_meaning.specs.Outcome.{outcome};
ghost use Rattle.sieve_meaning.specs.Program.{Commands};
ghost use Rattle.filing_image.specs.Program.{Program};
ghost use Rattle.filing_table.specs.Machine.{Trap, after_steps};
ghost use Rattle.desk_commands.specs.Parts.{IsGood, IsGoodImage, IsImageOf, RefusesImage};
ghost use Rattle.promises.specs.Records.{EndsWithinBudget, IsFaultAlone};
ghost use Rattle.promises.specs.Images.{Compiles};

use desk_commands::pinned_runs_end_alone;
use filing_image::one_spelling;
use filing_machine::every_run_ends;
use filing_table::a_run_ends_once;
use sieve_text::{one_scan, one_tree, one_verdict};

/// Any octets are the image of at most one program, whether it may run or not. Where it may:
/// - no run of it traps, whatever the message is and whichever classes are open;
/// - each run ends within the image's budget of steps, and with one outcome.
pub fn accepted_images_run_to_their_end()
    ensures program { (octets : List ℕ) (p q : Program) → IsImageOf octets p
        → IsImageOf octets q → p ≡ q }
    ensures never_traps { (octets : List ℕ) (p : Program) (c : Facts) (n : ℕ) → IsGoodImage octets p
        → after_steps p c n ≢ Trap }
    ensures ends { (octets : List ℕ) (p : Program) (c : Facts) → IsGoodImage octets p
        → (o : Outcome) × EndsWithinBudget p c o }
    ensures once { (p : Program) (c : Facts) (o x : Outcome) → EndsWithinBudget p c o
        → EndsWithinBudget p c x → o ≡ x }
{
    one_spelling();
    every_run_ends();
    a_run_ends_once();
}

/// Octets that may run are refused by no number, and others by at most one, apart from 99 (no memory).
pub fn images_are_refused_by_one_number()
    ensures accepted { (octets : List ℕ) (p : Program) (n : ℕ) → IsGoodImage octets p
        → RefusesImage octets n → n ≡ 99 }
    ensures refused { (octets : List ℕ) (m n : ℕ) → RefusesImage octets m → RefusesImage octets n
        → m ≢ 99 → n ≢ 99 → m ≡ n }
{
    one_spelling();
}

/// The program that a script is compiled to ends in every case within its budget. Its outcome is the one that the
/// script means together with all that it includes. A text is at most one script. An outcome with a fault is the
/// default class alone.
pub fn scripts_capture_what_they_mean()
    ensures text { (text : List ℕ) (t u : CommandTrees) → IsGood text t → IsGood text u → t ≡ u }
    ensures runs { (lib : Library) (n : List ℕ) (s : Commands) (p : Program) (c : Facts)
        → Compiles lib n s p → EndsWithinBudget p c (outcome c lib (Some n) s) }
    ensures fault { (lib : Library) (name : List ℕ) (script : Commands) (c : Facts) →
        IsFaultAlone (outcome c lib (Some name) script) }
{
    one_scan();
    one_verdict();
    one_tree();
    every_run_ends();
    a_run_ends_once();
    pinned_runs_end_alone();
}
