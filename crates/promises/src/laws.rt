//! Laws of whole sessions, each the contract of a function without effect.

ghost use Rattle.std.specs.Prelude.{◌≡◌, ◌≢◌, ◌≤◌, ℕ, Option, All};
ghost use Rattle.sieve_meaning.specs.declared.outcome.Outcome.{Outcome};
ghost use Rattle.filing_table.specs.Ends.{HasOutcome};
ghost use Rattle.record_archive.specs.Archive.{Archive};
ghost use Rattle.desk_commands.specs.Answers.{refused};
ghost use Rattle.desk_commands.specs.Pinning.{case_in, budget_of, IsAlone};
ghost use Rattle.desk_commands.specs.Standing.{Command, Flight, Standing, IsPinned, Step, opening};
ghost use Rattle.promises.specs.Alike.{AnswerAlike};
ghost use Rattle.promises.specs.Beginnings.{HasBegun};
ghost use Rattle.promises.specs.Flights.{IsInFlight};
ghost use Rattle.promises.specs.RefusedCalls.{IsLeftBy, KeepsSteps, RefusedCall};
ghost use Rattle.promises.specs.Runs.{IsReachedState, SessionFrom};
ghost use Rattle.promises.specs.Serial.{EqualAfterStriking, SameButTurns, SerialRun, forget, kept_answers, kept_commands};

use desk_commands::{Registry, pinned_runs_end_alone};
use filing_image::one_spelling;
use filing_machine::every_run_ends;
use filing_table::a_run_ends_once;
use sieve_text::{one_scan, one_tree, one_verdict};

/// Whatever TURNs are in it, a session is the serial one. The commands that are struck do nothing, and the others are
/// answered as if each capture were made whole at its finish.
pub fn turns_do_not_matter()
    ensures { (s : Standing) (x : SessionFrom s) → SerialRun (forget s)
        (kept_commands x.commands x.answers) (kept_answers x.commands x.answers) (forget x.new) }
{}

/// Two sessions that are equal after striking have the same answers to the commands that are left, except for offsets
/// and for 20 in the place of 21. They leave the same archive, scripts and programs, and the same tickets with what
/// stood at their beginnings. Both begin in one state, or in two that differ only in the steps granted to their captures
/// in flight.
pub fn equal_after_striking()
    ensures { (s t : Standing) (x : SessionFrom s) (y : SessionFrom t) → SameButTurns s t
        → EqualAfterStriking x y → AnswerAlike x y × SameButTurns x.new y.new }
{
    one_scan();
    one_verdict();
    one_tree();
    one_spelling();
    a_run_ends_once();
}

/// A refusal changes nothing, with one exception: a TURN that is refused with 99 (no memory) keeps the steps that it made
/// before, which are fewer than it asked for. Of the calls of a registry this holds on any disk (`registry`, `registry_no_memory`).
pub fn refusals_change_nothing<R: Registry>()
    ensures unchanged { (s : Standing) (c : Command) (n : ℕ) (at : Option ℕ) (new : Standing) →
        Step s c (refused n at) new → n ≢ 99 → new ≡ s }
    ensures no_memory { (s : Standing) (c : Command) (at : Option ℕ) (new : Standing)
        → Step s c (refused 99 at) new → KeepsSteps s c new }
    ensures registry { (x : RefusedCall R.keeper) → x.number ≢ 99
        → R.keeper.stands x.new x.state }
    ensures registry_no_memory { (x : RefusedCall R.keeper)
        → x.number ≡ 99 → IsLeftBy R.keeper x.state x.command x.new }
{}

/// In a session that begins with an archive:
/// - what stood at the BEGIN of a capture in flight still holds for it: the officer's program, the library, the
///   message, the open classes and the day of the moment;
/// - for each capture in flight an image is pinned that may run, and that means in every case what stood;
/// - the run of what is pinned takes at most as many steps as the budget that BEGIN answered;
/// - it ends with the outcome of the capture alone.
pub fn captures_are_pinned()
    ensures at_begin { (a : Archive) (x : SessionFrom (opening a)) (t : ℕ) (f : Flight)
        → IsInFlight x.new t f → HasBegun (opening a) x.commands x.answers f }
    ensures pinned { (s : Standing) → IsReachedState s → All IsPinned s.flights }
    ensures budget { (f : Flight) → IsPinned f → (f.run_length ≤ f.pinned.budget) ×
        (f.pinned.budget ≡ budget_of f.at_begin) }
    ensures alone { (f : Flight) (n : ℕ) (o : Outcome) → IsPinned f
        → HasOutcome f.pinned (case_in f.at_begin) n o → IsAlone f.at_begin o × (n ≡ f.run_length) }
{
    every_run_ends();
    a_run_ends_once();
    pinned_runs_end_alone();
}
