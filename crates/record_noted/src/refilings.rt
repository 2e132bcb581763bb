//! Refilings, with their events.

ghost use Rattle.record_archive.specs.Calls.{Quietly};
ghost use Rattle.record_archive.specs.Refiling as archive;
ghost use Rattle.record_history.specs.Events.{Event, Refiled};
ghost use Rattle.record_noted.specs.Histories.{Notes, IsTold, IsLineOf};

use crate::store::NotedStore;
use record_history::commands_are_told;
use record_store::StoreFault;
use record_tables::events::Note;
use sqlite::Alter;

impl<S: Alter> NotedStore<S> {
    fn note_refile(&mut self, line: &[u8], number: u32, path: &[u8]) -> Result<(), StoreFault>
        ensures { Notes S.Store self.old self.new result
            (λ a. archive.refile a number path.now) Quietly line.now }
    {
        let mark = self.mark_of(line)?;
        let note = Note {
            number: self.next,
            line,
            mark: mark.as_slice(),
        };
        self.store.refile_with(number, path, note)?;
        self.next += 1;
        self.mark = mark;
        Ok(())
    }

    /// Puts a live record into another class of the plan, as `Store::refile`, and notes it by the line of its event.
    ///
    /// Refused with 80, 84, 59, 89 (`sqlite`, or after 4,294,967,294 events) or 99 (no memory). A refusal changes nothing,
    /// and notes nothing.
    pub fn refile(&mut self, line: &[u8], number: u32, path: &[u8]) -> Result<(), StoreFault>
        ensures notes { Notes S.Store self.old self.new result
            (λ a. archive.refile a number path.now) Quietly line.now }
        ensures told { (e : Event) → IsLineOf self.old line.now (Refiled number path.now) e
            → IsTold S.Store self.old self.new result (λ a. archive.refile a number path.now) }
    {
        commands_are_told();
        self.note_refile(line, number, path)
    }
}
