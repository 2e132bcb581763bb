//! Laws of the definitions, each stated on a function that does nothing.

ghost use Rattle.std.specs.Prelude.{ℕ, ◌≡◌, ◌↔◌, None};
ghost use Rattle.filing_image.specs.Program.{Program, parts};
ghost use Rattle.filing_image.specs.Spelling.{IsOfVersion};
ghost use Rattle.sieve_meaning.specs.Case.{Facts};
ghost use Rattle.sieve_meaning.specs.declared.outcome.Outcome.{Outcome};
ghost use Rattle.filing_table.specs.Ends.{HasOutcome};
ghost use Rattle.filing_table.specs.VersionOne as one;

/// A run has one end at most: whenever it ends, it is with the same number of steps and the same outcome.
pub fn a_run_ends_once()
    ensures steps { (p : Program) (c : Facts) (m n : ℕ) (a b : Outcome) → HasOutcome p c m a
        → HasOutcome p c n b → m ≡ n }
    ensures outcome { (p : Program) (c : Facts) (m n : ℕ) (a b : Outcome) → HasOutcome p c m a
        → HasOutcome p c n b → a ≡ b }
{}

/// A version 1 program runs as it did before there were procedures: in each case its run ends with the same outcome, and
/// after the same number of steps.
pub fn version_one_runs_as_before()
    ensures { (p : Program) (c : Facts) (n : ℕ) (o : Outcome) → p.procedures ≡ None
        → IsOfVersion (parts p) → (HasOutcome p c n o ↔ one.HasOutcome p c n o) }
{}
