//! Destruction, with its event.

ghost use Rattle.std.specs.Prelude.{◌≡◌, ℕ, pos};
ghost use Rattle.jiff.specs.Words.{epoch_day};
ghost use Rattle.class_plan.specs.declared.schedules.Schedule.{Schedule};
ghost use Rattle.record_archive.specs.Archive as archive;
ghost use Rattle.record_archive.specs.Calls.{Quietly};
ghost use Rattle.record_history.specs.Events.{Event, Destroyed};
ghost use Rattle.record_noted.specs.Histories.{Notes, IsTold, IsLineOf};

use crate::store::NotedStore;
use class_plan::Date;
use record_history::commands_are_told;
use record_store::StoreFault;
use record_tables::events::Note;
use sqlite::Alter;

impl<S: Alter> NotedStore<S> {
    fn note_destroy(&mut self, line: &[u8], number: u32, day: Date) -> Result<(), StoreFault>
        ensures { Notes S.Store self.old self.new result
            (λ a. archive.destroy_on a number (epoch_day day)) Quietly line.now }
    {
        let mark = self.mark_of(line)?;
        let note = Note {
            number: self.next,
            line,
            mark: mark.as_slice(),
        };
        self.store.destroy_with(number, day, note)?;
        self.next += 1;
        self.mark = mark;
        Ok(())
    }

    /// Destroys a record that is due by a day, as `Store::destroy`, and notes it by the line of its event.
    ///
    /// Refused with 80 to 84, 89 (`sqlite`, or after 4,294,967,294 events) or 99 (no memory). A refusal changes nothing, and
    /// notes nothing. By a day before 1970 nothing is destroyed, whatever day the line tells.
    pub fn destroy(&mut self, line: &[u8], number: u32, day: Date) -> Result<(), StoreFault>
        ensures notes { Notes S.Store self.old self.new result
            (λ a. archive.destroy_on a number (epoch_day day)) Quietly line.now }
        ensures told { (e : Event) (on : ℕ) (schedule : Schedule)
            → ((n : ℕ) → epoch_day day ≡ pos n → on ≡ n)
            → IsLineOf self.old line.now (Destroyed number on schedule) e
            → IsTold S.Store self.old self.new result
            (λ a. archive.destroy_on a number (epoch_day day)) }
    {
        commands_are_told();
        self.note_destroy(line, number, day)
    }
}
