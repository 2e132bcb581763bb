//! Captures, with their events.

ghost use Rattle.std.specs.Prelude.{◌≡◌, ◌<◌, ◌≤◌, ℕ, length, map, Option};
ghost use Rattle.class_plan.specs.Calendar.{number_of_day};
ghost use Rattle.class_plan.specs.Dates.{IsCaptureDay};
ghost use Rattle.record_archive.specs.Archive as archive;
ghost use Rattle.record_archive.specs.Archive.{AreClasses};
ghost use Rattle.record_archive.specs.Lines.{line_view};
ghost use Rattle.record_history.specs.Replay.{seal};
ghost use Rattle.record_history.specs.Events.{Event, Captured, Filing};
ghost use Rattle.record_noted.specs.Histories.{Notes, IsTold, IsLineOf};

use crate::store::NotedStore;
use class_paths::Paths;
use class_plan::Date;
use record_archive::Line;
use record_history::commands_are_told;
use record_store::StoreFault;
use record_tables::events::Note;
use sqlite::Alter;

impl<S: Alter> NotedStore<S> {
    fn note_capture(
        &mut self,
        line: &[u8],
        body: &[u8],
        day: Date,
        paths: &Paths,
    ) -> Result<Vec<Line>, StoreFault>
        requires some { 0 < length paths.now }
        requires day { IsCaptureDay day }
        requires paths { AreClasses self.old.store.plan paths.now }
        ensures { Notes S.Store self.old self.new result
            (λ a. archive.capture a body.now (number_of_day day) paths.now)
            (λ a lines. map line_view lines.items ≡
            archive.capture_lines a (number_of_day day) paths.now) line.now }
    {
        let mark = self.mark_of(line)?;
        let note = Note {
            number: self.next,
            line,
            mark: mark.as_slice(),
        };
        let lines = self.store.capture_with(body, day, paths, note)?;
        self.next += 1;
        self.mark = mark;
        Ok(lines)
    }

    /// Stores a message and a record of it for each path, as `Store::capture`, and notes it by the line of its event.
    ///
    /// Refused with 87, 89 (`sqlite`, or after 4,294,967,294 events) or 99 (no memory). A refusal changes nothing, and notes
    /// nothing.
    ///
    /// The caller gives a day of 1970 to 2199, and paths of classes of the plan, one at least. The line tells the number of
    /// the first record, where one is left.
    pub fn capture(
        &mut self,
        line: &[u8],
        body: &[u8],
        day: Date,
        paths: &Paths,
    ) -> Result<Vec<Line>, StoreFault>
        requires some { 0 < length paths.now }
        requires day { IsCaptureDay day }
        requires paths { AreClasses self.old.store.plan paths.now }
        ensures notes { Notes S.Store self.old self.new result
            (λ a. archive.capture a body.now (number_of_day day) paths.now)
            (λ a lines. map line_view lines.items ≡
            archive.capture_lines a (number_of_day day) paths.now) line.now }
        ensures told { (e : Event) (filing : Option Filing) (first : ℕ)
            → (self.old.store.next ≤ 4294967295 → first ≡ self.old.store.next)
            → IsLineOf self.old line.now (Captured first (seal body.now)
            (number_of_day day) filing paths.now) e
            → IsTold S.Store self.old self.new result
            (λ a. archive.capture a body.now (number_of_day day) paths.now) }
    {
        commands_are_told();
        self.note_capture(line, body, day, paths)
    }
}
