//! Changes of the plan, with their events.

ghost use Rattle.record_archive.specs.Archive as archive;
ghost use Rattle.record_archive.specs.Calls.{Quietly};
ghost use Rattle.record_history.specs.Events.{Event, ClassAdded, PlanReplaced};
ghost use Rattle.record_noted.specs.Histories.{Notes, IsTold, IsLineOf};

use crate::store::NotedStore;
use class_plan::Plan;
use record_history::commands_are_told;
use record_store::StoreFault;
use record_tables::events::Note;
use sqlite::Alter;

impl<S: Alter> NotedStore<S> {
    fn note_add_class(&mut self, line: &[u8], path: &[u8]) -> Result<(), StoreFault>
        ensures { Notes S.Store self.old self.new result
            (λ a. archive.add_class a path.now) Quietly line.now }
    {
        let mark = self.mark_of(line)?;
        let note = Note {
            number: self.next,
            line,
            mark: mark.as_slice(),
        };
        self.store.add_class_with(path, note)?;
        self.next += 1;
        self.mark = mark;
        Ok(())
    }

    /// Adds an open class without a schedule of its own, as `Store::add_class`, and notes it by the line of its event.
    ///
    /// Refused with 52, 53, 54, 56, 89 (`sqlite`, or after 4,294,967,294 events) or 99 (no memory). A refusal changes
    /// nothing, and notes nothing.
    pub fn add_class(&mut self, line: &[u8], path: &[u8]) -> Result<(), StoreFault>
        ensures notes { Notes S.Store self.old self.new result
            (λ a. archive.add_class a path.now) Quietly line.now }
        ensures told { (e : Event) → IsLineOf self.old line.now (ClassAdded path.now) e
            → IsTold S.Store self.old self.new result (λ a. archive.add_class a path.now) }
    {
        commands_are_told();
        self.note_add_class(line, path)
    }

    fn note_revise(&mut self, line: &[u8], plan: Plan) -> Result<(), StoreFault>
        ensures { Notes S.Store self.old self.new result
            (λ a. archive.revise a plan) Quietly line.now }
    {
        let mark = self.mark_of(line)?;
        let note = Note {
            number: self.next,
            line,
            mark: mark.as_slice(),
        };
        self.store.revise_with(plan, note)?;
        self.next += 1;
        self.mark = mark;
        Ok(())
    }

    /// Replaces the plan, as `Store::revise`, and notes it by the line of its event.
    ///
    /// Refused with 57, 89 (`sqlite`, or after 4,294,967,294 events) or 99 (no memory). A refusal changes nothing, and
    /// notes nothing.
    pub fn revise(&mut self, line: &[u8], plan: Plan) -> Result<(), StoreFault>
        ensures notes { Notes S.Store self.old self.new result
            (λ a. archive.revise a plan) Quietly line.now }
        ensures told { (e : Event) → IsLineOf self.old line.now (PlanReplaced plan) e
            → IsTold S.Store self.old self.new result (λ a. archive.revise a plan) }
    {
        commands_are_told();
        self.note_revise(line, plan)
    }
}
