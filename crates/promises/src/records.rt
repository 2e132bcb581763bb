//! Laws of what the commands answer about captures and records, each the contract of a function without effect.

ghost use Rattle.std.specs.Prelude.{◌≡◌, ℕ, List};
ghost use Rattle.sieve_meaning.specs.declared.outcome.Outcome.{Outcome};
ghost use Rattle.record_archive.specs.Archive.{Line};
ghost use Rattle.desk_commands.specs.Answers.{listed};
ghost use Rattle.desk_commands.specs.Office.{IsFiled, due, file, try_image};
ghost use Rattle.desk_commands.specs.Standing.{Flight, Standing, Step, plain};
ghost use Rattle.promises.specs.Flights.{FinishOf, IsInFlight};
ghost use Rattle.promises.specs.Records.{FilesAlone, ImageEnds, IsDryRun, IsDueList, IsFaultAlone};

use filing_machine::every_run_ends;
use filing_table::a_run_ends_once;

/// FILE answers the outcome of the script in the message's case, with the global scripts to include and the open
/// classes of the plan. TRY answers the outcome of the image's run, which ends within its budget. An outcome with a
/// fault is the default class alone. Neither command changes anything.
pub fn dry_runs_store_nothing()
    ensures file { (s new : Standing) (script message : List ℕ) (o : Outcome)
        → IsDryRun s (file script message) o new → IsFiled s.office script message o }
    ensures filed_alone { (s new : Standing) (script message : List ℕ) (o : Outcome)
        → IsDryRun s (file script message) o new → IsFaultAlone o × (new ≡ s) }
    ensures trial { (s new : Standing) (octets message : List ℕ) (o : Outcome)
        → IsDryRun s (try_image octets message) o new → ImageEnds s.office octets message o }
    ensures tried_alone { (s new : Standing) (octets message : List ℕ) (o : Outcome)
        → IsDryRun s (try_image octets message) o new → IsFaultAlone o × (new ≡ s) }
{
    every_run_ends();
    a_run_ends_once();
}

/// FINISH makes one record for each class of the outcome of the capture alone, with the day of the moment of its BEGIN.
/// A capture that ended in a fault is in the default class alone. Each line that is answered gives one of the records
/// and its due day by the plan as it is. That day comes the period of the record's class after the day of the capture,
/// or it is the last day of the year in which that period ends, where the schedule says so.
pub fn finished_captures_are_whole()
    ensures { (s : Standing) (t : ℕ) (f : Flight) (x : FinishOf s t) → IsInFlight s t f
        → FilesAlone s.office.archive f.at_begin x.fault x.lines x.new.office.archive }
{}

/// DUE answers the due list of the day, and changes nothing. Each line is that of a live record without a hold whose
/// due day by the plan as it is now is not later. The due day comes the period of the record's class after the day of
/// its capture, or it is the last day of the year in which that period ends, where the schedule says so.
pub fn due_lists_are_whole()
    ensures { (s new : Standing) (day : ℕ) (lines : List Line)
        → Step s (plain (due day)) (listed lines) new → IsDueList s.office.archive day lines
        × (new ≡ s) }
{}
