//! Laws of what is pinned for a capture, stated on a function that does nothing.

ghost use Rattle.std.specs.Prelude.{ℕ, [], false, Some};
ghost use Rattle.sieve_meaning.specs.Case.{Facts};
ghost use Rattle.sieve_meaning.specs.Outcome.{outcome_at};
ghost use Rattle.sieve_meaning.specs.declared.outcome.Outcome.{Outcome};
ghost use Rattle.sieve_meaning.specs.declared.run_fault.RunFault.TheVariants.{TooHeavy};
ghost use Rattle.filing_image.specs.Program.{Program};
ghost use Rattle.filing_table.specs.Ends.{HasOutcome};
ghost use Rattle.desk_commands.specs.Pinning.{BeginState, IsAlone, Pins, case_in, one_fault};

/// The run of what is pinned for a capture ends with the outcome of the capture alone. What is pinned for a script that
/// is too heavy ends after one step with the fault that it is too heavy, in the default class alone.
pub fn pinned_runs_end_alone()
    ensures alone { (s : BeginState) (p : Program) (n : ℕ) (o : Outcome) → Pins s p
        → HasOutcome p (case_in s) n o → IsAlone s o }
    ensures too_heavy { (c : Facts)
        → HasOutcome one_fault c 1 (outcome_at (Some TooHeavy) [] false false) }
{}
