//! Due lists.

ghost use Rattle.std.specs.Prelude.{◌≡◌, ◌≤◌, map, IfOk, IfErr, filter, true, false};
ghost use Rattle.std.specs.List.{AllByRecursion};
ghost use Rattle.jiff.specs.Words.{epoch_day};
ghost use Rattle.record_reads.specs.DueRecords.{due_record_of};
ghost use Rattle.record_archive.specs.Archive.{due_list_on, from_1970};
ghost use Rattle.record_store.specs.Dues.{due_records, due_line, is_unheld, IsDatable};
ghost use Rattle.record_archive.specs.Lines.{line_view};
ghost use Rattle.record_archive.specs.Faults.{is_trouble};
ghost use Rattle.record_store.specs.Faults.{is_own};
ghost use Rattle.record_store.specs.Stores.{StaysStill, Tells, LeavesAll, Falls, StaysOpenOnOk, IsNeverOwn};

use crate::fault::{LOST, StoreFault, lost_or};
use crate::store::Store;
use class_plan::{Date, date_of, day_number};
use record_adoption::number_of;
use record_archive::Line;
use record_reads::due_records::due_records_by;
use record_tables::rows::DueRecordRow;
use sqlite::Alter;

/// The number of a day, in days since 1970-01-01; `None` for a day before that.
pub(crate) fn number_from_1970(day: Date) -> Option<u32>
    ensures { result ≡ from_1970 (epoch_day day) }
{
    let number = day_number(day);
    if number < 0 {
        return None;
    }
    Some(number_of(day))
}

fn line_of(due: DueRecordRow) -> Result<Line, StoreFault>
    ensures line { IfOk result (λ l. line_view l ≡ due_line (due_record_of due)) }
    ensures trouble { IfErr result (λ f. is_trouble f ≡ true) }
    ensures lost { IfErr result (λ f. IsDatable (due_record_of due) → is_own f ≡ false) }
{
    let Some(date) = date_of(i64::from(due.day)) else {
        return Err(LOST);
    };
    Ok(Line {
        number: due.record,
        path: due.path,
        due: Some(date),
    })
}

impl<S: Alter> Store<S> {
    /// The live records that are due by a day, by their due days and then by number.
    fn due_records(&mut self, day: u32) -> Result<Vec<DueRecordRow>, StoreFault>
        ensures tells { Tells S.Store self.old self.new result
            (λ a rows. map due_record_of rows.items ≡ due_records a day) (λ a f. ⊥) }
        ensures still { StaysStill S.Store self.old self.new }
        ensures falls { Falls S.Store self.old self.new }
        ensures cause { IsNeverOwn S.Store self.old self.new result }
        ensures open { StaysOpenOnOk S.Store self.old self.new result }
        ensures crash { LeavesAll S.Store self.old self.new }
    {
        match due_records_by(self.alloc, &mut self.conn, day) {
            Ok(dues) => Ok(dues),
            Err(fault) => Err(lost_or(fault)),
        }
    }

    /// The lines of the records that no hold keeps.
    fn unheld_lines(&self, due: Vec<DueRecordRow>) -> Result<Vec<Line>, StoreFault>
        ensures lines { IfOk result (λ lines. map line_view lines.items ≡
            map due_line (filter (is_unheld self.now.held) (map due_record_of due.items))) }
        ensures trouble { IfErr result (λ f. is_trouble f ≡ true) }
        ensures lost { IfErr result
            (λ f. AllByRecursion IsDatable (map due_record_of due.items) → is_own f ≡ false) }
    {
        let mut lines = Vec::new(self.alloc);
        for record in due {
            if self.held.count(record.record) == 0 {
                lines.push(line_of(record)?)?;
            }
        }
        Ok(lines)
    }

    /// The due list of a day: the live records without a hold that are due by it, by due date and then by number.
    ///
    /// Nothing is due by a day before 1970. The only refusals are 89 (`sqlite`) and 99 (no memory).
    pub fn due(&mut self, day: Date) -> Result<Vec<Line>, StoreFault>
        ensures tells { Tells S.Store self.old self.new result
            (λ a lines. map line_view lines.items ≡ due_list_on a (epoch_day day)) (λ a f. ⊥) }
        ensures still { StaysStill S.Store self.old self.new }
        ensures falls { Falls S.Store self.old self.new }
        ensures cause { IsNeverOwn S.Store self.old self.new result }
        ensures open { StaysOpenOnOk S.Store self.old self.new result }
        ensures crash { LeavesAll S.Store self.old self.new }
    {
        let Some(day) = number_from_1970(day) else {
            return Ok(Vec::new(self.alloc));
        };
        let due = self.due_records(day)?;
        let lines = self.unheld_lines(due)?;
        Ok(lines)
    }
}
