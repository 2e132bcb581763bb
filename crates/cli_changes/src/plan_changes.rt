//! What a new plan changes in an archive: which due dates move, and what is due at once by it.

ghost use Rattle.std.specs.Prelude.{◌≡◌, ◌∷◌, ◌++◌, [], option_map, IfOk, OnOk};
ghost use Rattle.jiff.specs.Words.{epoch_day};
ghost use Rattle.cli_choice.specs.Reads.{IsReadOf};
ghost use Rattle.record_archive.specs.Archive.{Archive};
ghost use Rattle.record_choice.specs.Entries.{entry_view};
ghost use Rattle.record_choice.specs.Reads.{OnlyReads};
ghost use Rattle.cli_changes.specs.PlanChanges.{all_lines, class_line, class_moved, is_any as is_any_of, is_same_due, moved_line, no_changes, with_change, AreChanges, CountAlso, Takes, live_entries, none_taken, more_taken};

use crate::due_today::{DueToday, put_compared, put_due_today};
use class_plan::{Date, Plan, day_number};
use cli_console::{Failure, Reader, counted, read_chosen};
use cli_texts::{Headers, due_by};
use record_choice::{Choice, Repository};
use record_store::{RecordEntry, StoreFault};
use std::alloc::{AllocError, Global};
use std::collections::BTreeMap;
use tool_texts::{Shown, put};

/// What a new plan changes for some records.
#[derive(Clone, Copy)]
struct Changes {
    /// How many records have another due date.
    moved: u64,
    before: DueToday,
    after: DueToday,
}

/// Whether two due dates are the same, or there is none.
fn is_same_day(one: Option<Date>, other: Option<Date>) -> bool
    ensures { result ≡ is_same_due (option_map epoch_day one) (option_map epoch_day other) }
{
    match (one, other) {
        (Some(one), Some(other)) => day_number(one) == day_number(other),
        (None, None) => true,
        _ => false,
    }
}

impl Changes {
    /// Nothing is changed for no record.
    fn none() -> Changes
        ensures { result ≡ no_changes }
    {
        Changes {
            moved: 0,
            before: DueToday::none(),
            after: DueToday::none(),
        }
    }

    /// Adds a live record. It moves where its due date by the new plan is another one.
    fn add(&mut self, entry: &RecordEntry, old: &Plan, new: &Plan, today: Date)
        ensures { self.new ≡ with_change old.now new.now (epoch_day today) (entry_view entry.now)
            self.old }
    {
        let path = entry.path.as_slice();
        let moves = !is_same_day(due_by(new, path, entry.day), entry.due);
        self.moved = counted(moves, self.moved);
        self.before.add(entry, path, old, today);
        self.after.add(entry, path, new, today);
    }

    /// Whether a due date moves, or another number of records is due or may be destroyed.
    fn is_any(&self) -> bool
        ensures { result ≡ is_any_of self.now }
    {
        self.moved > 0
            || self.before.all != self.after.all
            || self.before.destroyable != self.after.destroyable
    }
}

/// What a new plan changes for the records of an archive, in all and by class.
#[derive(Drop)]
pub struct PlanChanges {
    all: Changes,
    /// By the paths of classes that have live records.
    by_class: BTreeMap<Vec<u8>, Changes>,
}

impl PlanChanges {
    /// Nothing is changed for no record.
    fn none(alloc: Global) -> PlanChanges
        ensures all { result.all ≡ no_changes }
        ensures by_class { result.by_class.entries ≡ [] }
    {
        PlanChanges {
            all: Changes::none(),
            by_class: BTreeMap::new(alloc),
        }
    }

    /// Adds a live record, to all and to those of its class.
    fn add(
        &mut self,
        alloc: Global,
        entry: &RecordEntry,
        old: &Plan,
        new: &Plan,
        today: Date,
    ) -> Result<(), AllocError>
        ensures { OnOk result (CountAlso old.now new.now (epoch_day today)
            (entry_view entry.now ∷ []) self.old self.new) }
    {
        self.all.add(entry, old, new, today);
        if let Some(changes) = self.by_class.get_mut(entry.path.as_slice()) {
            changes.add(entry, old, new, today);
            return Ok(());
        }
        let mut changes = Changes::none();
        changes.add(entry, old, new, today);
        let path = Vec::from_slice(alloc, entry.path.as_slice())?;
        self.by_class.insert(path, changes)?;
        Ok(())
    }
}

/// What a new plan changes by a day, for the records that were taken.
#[derive(Drop)]
struct Changing<'a> {
    alloc: Global,
    plan: &'a Plan,
    today: Date,
    changes: PlanChanges,
}

impl Reader for Changing<'_> {
    ghost takes = { λ was a es is. Takes a was is es };

    fn take<R: Repository<Fault = StoreFault>>(
        &mut self,
        archive: &mut R,
        entry: &RecordEntry,
        _headers: Option<&Headers>,
    ) -> Result<(), Failure> {
        let plan = self.plan;
        self.changes
            .add(self.alloc, entry, archive.plan(), plan, self.today)?;
        Ok(())
    }

    ghost takes_none = { λ changing a. none_taken changing a };

    ghost takes_more = { λ x y z a es fs one other. more_taken x y z a es fs one other };
}

/// What a new plan changes in an archive by a day, for all its live records. A failure is that of the store.
pub fn changes_by<R: Repository<Fault = StoreFault>>(
    rt: &HostRuntime,
    archive: &mut R,
    plan: &Plan,
    day: Date,
) -> Result<PlanChanges, Failure>
    ensures reads { OnlyReads R.clean R.stands archive.old archive.new }
    ensures changes { IfOk result (λ changes. IsReadOf R.clean R.stands archive.old archive.new
        (λ a. AreChanges a.plan plan.now (epoch_day day) (live_entries a) changes)) }
{
    let mut changing = Changing {
        alloc: rt.alloc(),
        plan,
        today: day,
        changes: PlanChanges::none(rt.alloc()),
    };
    read_chosen(rt, archive, &Choice::live(), &mut changing)?;
    Ok(changing.changes)
}

/// Adds how many due dates move, in a line.
#[tactic(auto, unfolding(crate::specs::PlanChanges::moved_line))]
fn put_moved(text: &mut Shown, moved: u64) -> Result<(), AllocError>
    ensures { OnOk result (text.new ≡ text.old ++ moved_line moved) }
{
    put!(text; "due dates that move: " value(&moved))?;
    text.end_line()
}

/// Adds what a new plan changes for all records, in three lines.
fn put_all(text: &mut Shown, changes: &Changes) -> Result<(), AllocError>
    ensures { OnOk result (text.new ≡ text.old ++ all_lines changes.now) }
{
    put_moved(text, changes.moved)?;
    put_due_today(text, changes.before, changes.after)
}

/// Adds how many due dates of a class move by a new plan.
#[tactic(auto, unfolding(crate::specs::PlanChanges::class_moved))]
fn put_class_moved(text: &mut Shown, path: &[u8], moved: u64) -> Result<(), AllocError>
    ensures { OnOk result (text.new ≡ text.old ++ class_moved path.now moved) }
{
    put!(text; "class " named(path) ": due dates that move " value(&moved))
}

/// Adds what a new plan changes for the records of a class, in a line.
fn put_class(text: &mut Shown, path: &[u8], changes: &Changes) -> Result<(), AllocError>
    ensures { OnOk result (text.new ≡ text.old ++ class_line path.now changes.now) }
{
    put_class_moved(text, path, changes.moved)?;
    put_compared(
        text,
        "; due at once ",
        changes.after.all,
        changes.before.all,
    )?;
    let what = "; may be destroyed at once ";
    put_compared(
        text,
        what,
        changes.after.destroyable,
        changes.before.destroyable,
    )?;
    text.end_line()
}

/// What a new plan changes: three lines for all records, and a line for each class for whose records it changes something.
pub fn changes_lines(alloc: Global, changes: &PlanChanges) -> Result<Shown, AllocError> {
    let mut text = Shown::new(alloc);
    put_all(&mut text, &changes.all)?;
    for (path, of_class) in &changes.by_class {
        if of_class.is_any() {
            put_class(&mut text, path.as_slice(), of_class)?;
        }
    }
    Ok(text)
}
