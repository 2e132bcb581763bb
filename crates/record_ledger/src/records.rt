//! The ledger as `Records`, over which a desk is made. Over a history each change is noted by its
//! line, on the ledger's occasion.

ghost use Rattle.std.specs.Prelude.{◌≡◌, ◌<◌, length, map};
ghost use Rattle.jiff.specs.Words.{epoch_day};
ghost use Rattle.class_plan.specs.Calendar.{number_of_day};
ghost use Rattle.class_plan.specs.Dates.{IsCaptureDay};
ghost use Rattle.record_archive.specs.Archive as archive;
ghost use Rattle.record_archive.specs.Archive.{AreClasses};
ghost use Rattle.record_archive.specs.Calls.{CarriesOut, Quietly};
ghost use Rattle.record_archive.specs.Lines.{line_view};
ghost use Rattle.record_history.specs.Events.{ClassAdded, Held, PlanReplaced, Released};
ghost use Rattle.record_ledger.specs.Ledgers.{keeper_of, store_of, kept_plan, kept_archive};
ghost use Rattle.record_ledger.specs.Notes.{number_since_1970 as number_since};
ghost use Rattle.record_ledger.specs.Notings.{captured, IsDestruction, NotesChange};

use crate::ledger::Ledger;
use crate::noted;
use class_paths::Paths;
use class_plan::{Date, Plan};
use record_archive::{Line, Records};
use record_noted::Opened;
use record_store::{Cause, StoreFault};
use sqlite::Alter;
use std::time::Clock;

impl<S: Alter, K: Clock> Records for Ledger<'_, S, K> {
    type Cause = Cause;

    ghost keeper = { keeper_of S.Store };

    ghost plan_of = { λ l. (store_of l.kept).plan };

    fn plan(&self) -> &Plan {
        self.plan_kept()
    }

    fn add_class(&mut self, path: &[u8]) -> Result<(), StoreFault>
        ensures carries { CarriesOut (keeper_of S.Store) self.old self.new
            (λ a. archive.add_class a path.now) Quietly result }
        ensures notes { NotesChange S.Store self.old self.new
            (λ a. archive.add_class a path.now)
            (λ a d. d ≡ ClassAdded path.now) result }
    {
        match &mut self.kept {
            Opened::Plain(store) => Records::add_class(store, path),
            Opened::Noted(noted) => noted::add_class(self.alloc, noted, &self.occasion, path),
        }
    }

    fn revise(&mut self, plan: Plan) -> Result<(), StoreFault>
        ensures carries { CarriesOut (keeper_of S.Store) self.old self.new
            (λ a. archive.revise a plan) Quietly result }
        ensures notes { NotesChange S.Store self.old self.new
            (λ a. archive.revise a plan)
            (λ a d. d ≡ PlanReplaced plan) result }
    {
        match &mut self.kept {
            Opened::Plain(store) => Records::revise(store, plan),
            Opened::Noted(noted) => noted::revise(self.alloc, noted, &self.occasion, plan),
        }
    }

    fn capture(&mut self, body: &[u8], day: Date, paths: &Paths) -> Result<Vec<Line>, StoreFault>
        requires day { IsCaptureDay day }
        requires paths { AreClasses (store_of self.old.kept).plan paths.now }
        ensures carries { CarriesOut (keeper_of S.Store) self.old self.new
            (λ a. archive.capture a body.now (number_of_day day) paths.now)
            (λ a lines. map line_view lines.items ≡
            archive.capture_lines a (number_of_day day) paths.now) result }
        ensures notes { 0 < length paths.now → NotesChange S.Store self.old self.new
            (λ a. archive.capture a body.now (number_of_day day) paths.now)
            (λ a d. d ≡ captured self.old.occasion a body.now (number_of_day day) paths.now)
            result }
    {
        match &mut self.kept {
            Opened::Plain(store) => Records::capture(store, body, day, paths),
            Opened::Noted(noted) => {
                noted::capture(self.alloc, noted, &self.occasion, body, day, paths)
            }
        }
    }

    fn hold(&mut self, name: &[u8], number: u32) -> Result<(), StoreFault>
        ensures carries { CarriesOut (keeper_of S.Store) self.old self.new
            (λ a. archive.hold a name.now number) Quietly result }
        ensures notes { NotesChange S.Store self.old self.new
            (λ a. archive.hold a name.now number)
            (λ a d. d ≡ Held name.now number) result }
    {
        match &mut self.kept {
            Opened::Plain(store) => Records::hold(store, name, number),
            Opened::Noted(noted) => noted::hold(self.alloc, noted, &self.occasion, name, number),
        }
    }

    fn release(&mut self, name: &[u8], number: u32) -> Result<(), StoreFault>
        ensures carries { CarriesOut (keeper_of S.Store) self.old self.new
            (λ a. archive.release a name.now number) Quietly result }
        ensures notes { NotesChange S.Store self.old self.new
            (λ a. archive.release a name.now number)
            (λ a d. d ≡ Released name.now number) result }
    {
        match &mut self.kept {
            Opened::Plain(store) => Records::release(store, name, number),
            Opened::Noted(noted) => noted::release(self.alloc, noted, &self.occasion, name, number),
        }
    }

    fn due(&mut self, day: Date) -> Result<Vec<Line>, StoreFault> {
        match &mut self.kept {
            Opened::Plain(store) => Records::due(store, day),
            Opened::Noted(noted) => noted::due(noted, day),
        }
    }

    fn destroy(&mut self, number: u32, day: Date) -> Result<(), StoreFault>
        ensures carries { CarriesOut (keeper_of S.Store) self.old self.new
            (λ a. archive.destroy_on a number (epoch_day day)) Quietly result }
        ensures notes { NotesChange S.Store self.old self.new
            (λ a. archive.destroy_on a number (epoch_day day))
            (IsDestruction number (number_since day)) result }
    {
        match &mut self.kept {
            Opened::Plain(store) => Records::destroy(store, number, day),
            Opened::Noted(noted) => noted::destroy(self.alloc, noted, &self.occasion, number, day),
        }
    }

    ghost plan_is = { λ l a stands. kept_plan _ l.kept a stands };

    ghost is_archive = { λ l a stands. kept_archive _ l.kept a stands };
}
