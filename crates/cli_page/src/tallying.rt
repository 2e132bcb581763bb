//! How records are counted.

ghost use Rattle.std.specs.Prelude.{◌≡◌, ◌+◌, map, OnOk, OnErr, IfOk, IfSome};
ghost use Rattle.cli_page.specs.Counting.{no_records};
ghost use Rattle.cli_page.specs.Columns.{in_years, no_years};
ghost use Rattle.cli_page.specs.Tallies.{HasPathAt, CountsOne, are_dated, class_seen, class_of_none};

use crate::counts::{Counts, Seen};
use crate::fault::ReportFault;
use crate::tally::{ClassCounts, Tally};
use crate::years::Years;
use class_plan::Plan;
use std::alloc::Global;

/// The place of a class.
fn place_of(classes: &[ClassCounts], path: &[u8]) -> Option<usize>
    ensures { IfSome result (λ i. HasPathAt path.now classes.now i) }
{
    let place = classes
        .binary_search_by(|class| class.path.as_slice().cmp(path))
        .ok()?;
    if classes.get(place)?.path.as_slice() == path {
        Some(place)
    } else {
        None
    }
}

/// The classes of a plan, in byte order of their paths, without records.
fn classes_of(alloc: Global, plan: &Plan) -> Result<Vec<ClassCounts>, ReportFault>
    ensures { IfOk result
        (λ classes. map class_seen classes.items ≡ map class_of_none plan.now.rows) }
{
    let mut classes = Vec::new(alloc);
    let rows = plan.classes(alloc)?;
    for row in rows.as_slice() {
        let path = Vec::from_slice(alloc, row.0)?;
        let counts = Counts::new();
        classes.push(ClassCounts { path, counts })?;
    }
    Ok(classes)
}

impl Tally {
    /// No records in any class of a plan, for a report by a day that is counted from 1970-01-01. The classes are in byte
    /// order of their paths.
    ///
    /// The only refusal is no memory (99).
    pub fn new(alloc: Global, plan: &Plan, day: u32) -> Result<Tally, ReportFault>
        ensures all { IfOk result (λ t. t.all ≡ no_records) }
        ensures classes { IfOk result
            (λ t. map class_seen t.classes.items ≡ map class_of_none plan.now.rows) }
        ensures years { IfOk result (λ t. t.years.years.items ≡ no_years) }
        ensures day { IfOk result (λ t. t.day ≡ day) }
    {
        let classes = classes_of(alloc, plan)?;
        let years = Years::new(alloc)?;
        Ok(Tally {
            day,
            all: Counts::new(),
            classes,
            years,
        })
    }

    /// Adds a live record with a due date to its year.
    fn years_with(years: &mut Years, day: u32, seen: &Seen) -> Result<(), ReportFault>
        ensures ok { OnOk result
            (in_years years.new.years.items ≡ in_years years.old.years.items + are_dated seen.now) }
        ensures err { OnErr result (years.new.years.items ≡ years.old.years.items) }
    {
        match seen.due {
            Some(due) if !seen.is_destroyed => years.add(day, due),
            _ => Ok(()),
        }
    }

    /// Adds a record of a class.
    ///
    /// A path that is none of the plan's is refused, and so are a due date outside of the years 1970 to 9999 and a count
    /// above 2^64 - 1. A refusal changes nothing.
    pub fn add(&mut self, path: &[u8], seen: &Seen) -> Result<(), ReportFault>
        ensures ok { OnOk result (CountsOne path.now seen.now self.old self.new) }
        ensures err { OnErr result (self.new.all ≡ self.old.all) }
        ensures classes { OnErr result (self.new.classes.items ≡ self.old.classes.items) }
    {
        let Some(place) = place_of(self.classes.as_slice(), path) else {
            return Err(ReportFault::NoClass);
        };
        let Some(all) = self.all.with(self.day, seen) else {
            return Err(ReportFault::TooMany);
        };
        let Some(class) = self.classes[place].counts.with(self.day, seen) else {
            return Err(ReportFault::TooMany);
        };
        Tally::years_with(&mut self.years, self.day, seen)?;
        self.classes[place].counts = class;
        self.all = all;
        Ok(())
    }
}
