//! Laws of the runs of verified programs, stated on a function that does nothing.

ghost use Rattle.std.specs.Prelude.{ℕ, ◌≢◌, ◌≤◌};
ghost use Rattle.filing_image.specs.Program.{Program};
ghost use Rattle.filing_verify.specs.Well.{IsWell};
ghost use Rattle.sieve_meaning.specs.Case.{Facts};
ghost use Rattle.sieve_meaning.specs.declared.outcome.Outcome.{Outcome};
ghost use Rattle.filing_table.specs.Machine.{Trap, after_steps};
ghost use Rattle.filing_table.specs.Ends.{HasOutcome};

/// The run of a verified program never traps, whatever the case. It ends with an outcome, after at most as many steps
/// as the program's budget.
pub fn every_run_ends()
    ensures never_traps { (p : Program) (c : Facts) (n : ℕ) → IsWell p → after_steps p c n ≢ Trap }
    ensures ends { (p : Program) (c : Facts) → IsWell p → (n : ℕ) × (o : Outcome) × (n ≤ p.budget) ×
        HasOutcome p c n o }
{}
