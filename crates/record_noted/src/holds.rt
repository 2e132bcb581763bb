//! Holds, with their events.

ghost use Rattle.record_archive.specs.Archive as archive;
ghost use Rattle.record_archive.specs.Calls.{Quietly};
ghost use Rattle.record_history.specs.Events.{Event, Held, Released};
ghost use Rattle.record_noted.specs.Histories.{Notes, IsTold, IsLineOf};

use crate::store::NotedStore;
use record_history::commands_are_told;
use record_store::StoreFault;
use record_tables::events::Note;
use sqlite::Alter;

impl<S: Alter> NotedStore<S> {
    fn note_hold(&mut self, line: &[u8], name: &[u8], number: u32) -> Result<(), StoreFault>
        ensures { Notes S.Store self.old self.new result
            (λ a. archive.hold a name.now number) Quietly line.now }
    {
        let mark = self.mark_of(line)?;
        let note = Note {
            number: self.next,
            line,
            mark: mark.as_slice(),
        };
        self.store.hold_with(name, number, note)?;
        self.next += 1;
        self.mark = mark;
        Ok(())
    }

    /// Places a hold of that name on a record, as `Store::hold`, and notes it by the line of its event.
    ///
    /// Refused with 80, 84, 86, 89 (`sqlite`, or after 4,294,967,294 events) or 99 (no memory). A refusal changes nothing,
    /// and notes nothing.
    pub fn hold(&mut self, line: &[u8], name: &[u8], number: u32) -> Result<(), StoreFault>
        ensures notes { Notes S.Store self.old self.new result
            (λ a. archive.hold a name.now number) Quietly line.now }
        ensures told { (e : Event) → IsLineOf self.old line.now (Held name.now number) e
            → IsTold S.Store self.old self.new result (λ a. archive.hold a name.now number) }
    {
        commands_are_told();
        self.note_hold(line, name, number)
    }

    fn note_release(&mut self, line: &[u8], name: &[u8], number: u32) -> Result<(), StoreFault>
        ensures { Notes S.Store self.old self.new result
            (λ a. archive.release a name.now number) Quietly line.now }
    {
        let mark = self.mark_of(line)?;
        let note = Note {
            number: self.next,
            line,
            mark: mark.as_slice(),
        };
        self.store.release_with(name, number, note)?;
        self.next += 1;
        self.mark = mark;
        Ok(())
    }

    /// Ends the hold of that name on a record, as `Store::release`, and notes it by the line of its event.
    ///
    /// Refused with 80, 85, 89 (`sqlite`, or after 4,294,967,294 events) or 99 (no memory). A refusal changes nothing, and
    /// notes nothing.
    pub fn release(&mut self, line: &[u8], name: &[u8], number: u32) -> Result<(), StoreFault>
        ensures notes { Notes S.Store self.old self.new result
            (λ a. archive.release a name.now number) Quietly line.now }
        ensures told { (e : Event) → IsLineOf self.old line.now (Released name.now number) e
            → IsTold S.Store self.old self.new result (λ a. archive.release a name.now number) }
    {
        commands_are_told();
        self.note_release(line, name, number)
    }
}
