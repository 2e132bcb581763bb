//! Changes of a store with a history: each is noted by its line. Each first finds the connection
//! open, so nothing is done on one that a fault of the disk has shut.

ghost use Rattle.std.specs.Prelude.{◌≡◌, ◌<◌, length, map};
ghost use Rattle.jiff.specs.Words.{epoch_day};
ghost use Rattle.class_plan.specs.Calendar.{number_of_day};
ghost use Rattle.class_plan.specs.Dates.{IsCaptureDay};
ghost use Rattle.record_archive.specs.Archive as archive;
ghost use Rattle.record_archive.specs.Archive.{AreClasses, due_list_on};
ghost use Rattle.record_archive.specs.Calls.{CarriesOut, Quietly, unchanged};
ghost use Rattle.record_archive.specs.Lines.{line_view};
ghost use Rattle.record_archive.specs.Refiling as refiling;
ghost use Rattle.record_history.specs.Events.{ClassAdded, Held, PlanReplaced, Refiled, Released};
ghost use Rattle.record_noted.specs.Keepers.{keeper_of};
ghost use Rattle.record_ledger.specs.Notes.{number_since_1970 as number_since};
ghost use Rattle.record_ledger.specs.Notings.{captured, CarriesOutAndNotes, IsDestruction, NotesDeed};

use crate::deeds::{capture_number, number_since_1970, path_list};
use crate::occasion::Occasion;
use class_paths::Paths;
use class_plan::{Date, Plan};
use record_archive::Line;
use record_history::{Deed, Listing, seal_of};
use record_noted::NotedStore;
use record_store::StoreFault;
use sqlite::Alter;
use std::alloc::Global;
use std::time::Clock;

pub(crate) fn add_class<S: Alter, K: Clock>(
    alloc: Global,
    noted: &mut NotedStore<S>,
    occasion: &Occasion<'_, K>,
    path: &[u8],
) -> Result<(), StoreFault>
    ensures { CarriesOutAndNotes S.Store noted.old noted.new occasion.now
        (λ a. archive.add_class a path.now) Quietly
        (λ a d. d ≡ ClassAdded path.now) result }
{
    noted.ensure_open()?;
    let line = occasion.line_of(alloc, noted.next(), Deed::ClassAdded { path })?;
    let done = noted.add_class(line.as_slice(), path);
    let _idle = noted.is_idle();
    done
}

pub(crate) fn revise<S: Alter, K: Clock>(
    alloc: Global,
    noted: &mut NotedStore<S>,
    occasion: &Occasion<'_, K>,
    plan: Plan,
) -> Result<(), StoreFault>
    ensures { CarriesOutAndNotes S.Store noted.old noted.new occasion.now
        (λ a. archive.revise a plan) Quietly
        (λ a d. d ≡ PlanReplaced plan) result }
{
    noted.ensure_open()?;
    let listing = Listing::of(alloc, &plan)?;
    let line = occasion.line_of(alloc, noted.next(), Deed::PlanReplaced(listing))?;
    let done = noted.revise(line.as_slice(), plan);
    let _idle = noted.is_idle();
    done
}

pub(crate) fn hold<S: Alter, K: Clock>(
    alloc: Global,
    noted: &mut NotedStore<S>,
    occasion: &Occasion<'_, K>,
    name: &[u8],
    number: u32,
) -> Result<(), StoreFault>
    ensures { CarriesOutAndNotes S.Store noted.old noted.new occasion.now
        (λ a. archive.hold a name.now number) Quietly
        (λ a d. d ≡ Held name.now number) result }
{
    noted.ensure_open()?;
    let line = occasion.line_of(alloc, noted.next(), Deed::Held { name, number })?;
    let done = noted.hold(line.as_slice(), name, number);
    let _idle = noted.is_idle();
    done
}

pub(crate) fn release<S: Alter, K: Clock>(
    alloc: Global,
    noted: &mut NotedStore<S>,
    occasion: &Occasion<'_, K>,
    name: &[u8],
    number: u32,
) -> Result<(), StoreFault>
    ensures { CarriesOutAndNotes S.Store noted.old noted.new occasion.now
        (λ a. archive.release a name.now number) Quietly
        (λ a d. d ≡ Released name.now number) result }
{
    noted.ensure_open()?;
    let line = occasion.line_of(alloc, noted.next(), Deed::Released { name, number })?;
    let done = noted.release(line.as_slice(), name, number);
    let _idle = noted.is_idle();
    done
}

pub(crate) fn refile<S: Alter, K: Clock>(
    alloc: Global,
    noted: &mut NotedStore<S>,
    occasion: &Occasion<'_, K>,
    number: u32,
    path: &[u8],
) -> Result<(), StoreFault>
    ensures { CarriesOutAndNotes S.Store noted.old noted.new occasion.now
        (λ a. refiling.refile a number path.now) Quietly
        (λ a d. d ≡ Refiled number path.now) result }
{
    noted.ensure_open()?;
    let line = occasion.line_of(alloc, noted.next(), Deed::Refiled { number, path })?;
    let done = noted.refile(line.as_slice(), number, path);
    let _idle = noted.is_idle();
    done
}

/// Where there is no path nothing is stored, and nothing is noted.
pub(crate) fn capture<S: Alter, K: Clock>(
    alloc: Global,
    noted: &mut NotedStore<S>,
    occasion: &Occasion<'_, K>,
    body: &[u8],
    day: Date,
    paths: &Paths,
) -> Result<Vec<Line>, StoreFault>
    requires day { IsCaptureDay day }
    requires paths { AreClasses noted.old.store.plan paths.now }
    ensures carries { CarriesOut (keeper_of S.Store) noted.old noted.new
        (λ a. archive.capture a body.now (number_of_day day) paths.now)
        (λ a lines. map line_view lines.items ≡
        archive.capture_lines a (number_of_day day) paths.now) result }
    ensures notes { 0 < length paths.now → NotesDeed S.Store noted.old noted.new
        occasion.now (λ a. archive.capture a body.now (number_of_day day) paths.now)
        (λ a d. d ≡ captured occasion.now a body.now (number_of_day day) paths.now)
        result }
{
    noted.ensure_open()?;
    if paths.as_slice().is_empty() {
        let _idle = noted.is_idle();
        return Ok(Vec::new(alloc));
    }
    let seal = seal_of(alloc, body)?;
    let list = path_list(alloc, paths)?;
    let deed = Deed::Captured {
        first: noted.next_record(),
        seal,
        day: capture_number(day),
        filing: occasion.filing,
        paths: list,
    };
    let line = occasion.line_of(alloc, noted.next(), deed)?;
    let lines = noted.capture(line.as_slice(), body, day, paths);
    let _idle = noted.is_idle();
    lines
}

pub(crate) fn due<S: Alter>(noted: &mut NotedStore<S>, day: Date) -> Result<Vec<Line>, StoreFault>
    ensures { CarriesOut (keeper_of S.Store) noted.old noted.new unchanged
        (λ a lines. map line_view lines.items ≡ due_list_on a (epoch_day day)) result }
{
    noted.ensure_open()?;
    let lines = noted.due(day);
    let _idle = noted.is_idle();
    lines
}

pub(crate) fn destroy<S: Alter, K: Clock>(
    alloc: Global,
    noted: &mut NotedStore<S>,
    occasion: &Occasion<'_, K>,
    number: u32,
    day: Date,
) -> Result<(), StoreFault>
    ensures { CarriesOutAndNotes S.Store noted.old noted.new occasion.now
        (λ a. archive.destroy_on a number (epoch_day day)) Quietly
        (IsDestruction number (number_since day)) result }
{
    noted.ensure_open()?;
    let schedule = noted.schedule_of(number)?;
    let deed = Deed::Destroyed {
        number,
        day: number_since_1970(day),
        schedule,
    };
    let line = occasion.line_of(alloc, noted.next(), deed)?;
    let done = noted.destroy(line.as_slice(), number, day);
    let _idle = noted.is_idle();
    done
}
