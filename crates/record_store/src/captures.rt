//! Captures: a message is stored, with a record in each of its classes.

ghost use Rattle.std.specs.Prelude.{◌≡◌, ◌+◌, ◌≤◌, ◌<◌, ◌^◌, length, map, ◌++◌, [], pos, option_map, true, IfOk, IfErr, OnOk, OnErr};
ghost use Rattle.std.specs.List.{All};
ghost use Rattle.jiff.specs.Words.{IsBetween, epoch_day};
ghost use Rattle.class_plan.specs.Dates.{IsCaptureDay};
ghost use Rattle.class_plan.specs.Calendar.{number_of_day, due_on};
ghost use Rattle.record_tables.specs.CodeRows.{due_of};
ghost use Rattle.record_archive.specs.Archive as archive;
ghost use Rattle.record_archive.specs.Archive.{Archive, AreClasses};
ghost use Rattle.record_store.specs.Captures.{HasDueDay, lines_of, dues_of_lines, due_before, ObeysCapture, ObeysCaptureReady};
ghost use Rattle.record_store.specs.Companions.{Brought, FailsStill, LeavesBoth, ChangesReady, BringsWhere, LeavesBothWhere};
ghost use Rattle.record_archive.specs.Lines.{line_view};
ghost use Rattle.record_archive.specs.Faults.{is_trouble};
ghost use Rattle.record_store.specs.Stores.{StandsFor, Leaves, Behaves};

use crate::changes::Capture;
use crate::fault::{BUSY, StoreFault, fault_of};
use crate::store::Store;
use class_paths::Paths;
use class_plan::{Date, day_number};
use record_adoption::number_of;
use record_archive::{ArchiveRefusal, Line};
use record_tables::companions::{Accompanied, Alone, Companion};
use record_tables::rows::DueRow;
use record_tables::transact::transact;
use sqlite::Alter;
use std::alloc::{AllocError, Global};

/// One above the greatest number of a record.
const NUMBERS: u64 = 1 << 32;

/// Adds the due day of a line, if it has one.
fn push_due(dues: &mut Vec<DueRow>, line: &Line) -> Result<(), AllocError>
    requires { HasDueDay line.now }
    ensures { OnOk result (map due_of dues.new.items ≡ map due_of dues.old.items ++
        due_before (line_view line.now).number (line_view line.now).due []) }
{
    let Some(date) = line.due else {
        return Ok(());
    };
    dues.push(DueRow {
        record: line.number,
        day: number_of(date),
    })?;
    Ok(())
}

/// The due days of lines.
fn due_rows(alloc: Global, lines: &[Line]) -> Result<Vec<DueRow>, AllocError>
    requires { All HasDueDay lines.now }
    ensures { IfOk result (λ v. map due_of v.items ≡ dues_of_lines (map line_view lines.now)) }
{
    let mut dues = Vec::new(alloc);
    for line in lines {
        push_due(&mut dues, line)?;
    }
    Ok(dues)
}

impl<S: Alter> Store<S> {
    /// The line of a new record, with the due date by the plan.
    fn new_line(&self, number: u32, path: &[u8], day: Date) -> Result<Line, AllocError>
        requires { IsCaptureDay day }
        ensures line { IfOk result (λ l. line_view l ≡ record {
          number = number;
          path = path.now;
          due = option_map pos (due_on self.now.plan path.now (number_of_day day));
        }) }
        ensures day { IfOk result HasDueDay }
    {
        let due = self.plan.due_of(path, day);
        Ok(Line {
            number,
            path: Vec::from_slice(self.alloc, path)?,
            due,
        })
    }

    /// A line for each path, numbered upwards, with the due date by the plan.
    fn new_lines(&self, first: u32, day: Date, paths: &Paths) -> Result<Vec<Line>, AllocError>
        requires room { first + length paths.now ≤ 2 ^ 32 }
        requires day { IsCaptureDay day }
        ensures lines { IfOk result (λ v. map line_view v.items ≡
            lines_of self.now.plan first (number_of_day day) paths.now) }
        ensures days { IfOk result (λ v. All HasDueDay v.items) }
    {
        let paths = paths.as_slice();
        let mut lines = Vec::new(self.alloc);
        for (i, path) in paths.iter().enumerate() {
            let line = self.new_line(first + i as u32, path.as_slice(), day)?;
            lines.push(line)?;
        }
        Ok(lines)
    }

    /// Stores a message and its records, for which there are numbers left.
    fn place_capture<D: Companion + Drop>(
        &mut self,
        first: u32,
        body: &[u8],
        day: u32,
        paths: &Paths,
        dues: &[DueRow],
        companion: D,
    ) -> Result<(), StoreFault>
        requires some { 0 < length paths.now }
        requires room { first + length paths.now ≤ 2 ^ 32 }
        requires first { first ≡ self.old.next }
        requires classes { AreClasses self.old.plan paths.now }
        requires day { day ≤ 84005 }
        requires dues { map due_of dues.now ≡
            dues_of_lines (lines_of self.old.plan first day paths.now) }
        ensures ok { OnOk result (ChangesReady S.Store (D.needs companion) self.old self.new
            (λ a. Unit {0}) (λ a. archive.after_capture a body.now day paths.now)) }
        ensures err { OnErr result
            ((a : Archive) → StandsFor S.Store self.old a → StandsFor S.Store self.new a) }
        ensures trouble { IfErr result (λ f. is_trouble f ≡ true) }
        ensures brought { OnOk result
            (BringsWhere S.Store (D.needs companion) (D.brings companion) self.old self.new
            (λ a. Unit {0})) }
        ensures still { FailsStill S.Store self.old self.new result }
        ensures behaves { Behaves S.Store self.old self.new result }
        ensures crash { LeavesBothWhere S.Store (D.needs companion) (D.brings companion)
            self.old self.new (λ a. Unit {0})
            (λ a. archive.after_capture a body.now day paths.now) }
    {
        if !self.conn.is_autocommit() {
            return Err(BUSY);
        }
        let count = paths.as_slice().len() as u64;
        let Ok(()) = self.others.add(first, count - 1) else {
            return Err(StoreFault::NoMemory);
        };
        let change = Capture {
            first,
            body,
            day,
            paths,
            dues,
        };
        match transact(&mut self.conn, Accompanied { change, companion }) {
            Ok(()) => {
                self.next += count;
                Ok(())
            }
            Err(error) => {
                self.others.take(first, count - 1);
                Err(fault_of(error))
            }
        }
    }

    /// Stores a message, and a record of it for each path, numbered upwards in their order. Answers a line for each
    /// record, with the due date by the plan. Where there is no path nothing is stored, and the connection is only found
    /// open (`ensure_open`).
    ///
    /// Refused with 87 where a number would pass 4,294,967,295, with 89 (`sqlite`) or with 99 (no memory). A refusal
    /// changes nothing.
    ///
    /// The caller gives a day of 1970 to 2199, and paths of classes of the plan.
    pub fn capture(
        &mut self,
        body: &[u8],
        day: Date,
        paths: &Paths,
    ) -> Result<Vec<Line>, StoreFault>
        requires day { IsCaptureDay day }
        requires paths { AreClasses self.old.plan paths.now }
        ensures obeys { ObeysCapture S.Store self.old self.new result
            body.now (number_of_day day) paths.now }
        ensures behaves { Behaves S.Store self.old self.new result }
        ensures crash { Leaves S.Store self.old self.new
            (λ a. archive.capture a body.now (number_of_day day) paths.now) }
    {
        if paths.as_slice().is_empty() {
            self.ensure_open()?;
            return Ok(Vec::new(self.alloc));
        }
        self.capture_with(body, day, paths, Alone)
    }

    /// The same beside a companion, in one transaction. The caller gives a path at least.
    pub fn capture_with<D: Companion + Drop>(
        &mut self,
        body: &[u8],
        day: Date,
        paths: &Paths,
        companion: D,
    ) -> Result<Vec<Line>, StoreFault>
        requires some { 0 < length paths.now }
        requires day { IsCaptureDay day }
        requires paths { AreClasses self.old.plan paths.now }
        ensures obeys { ObeysCaptureReady S.Store (D.needs companion) self.old self.new result
            body.now (number_of_day day) paths.now }
        ensures brought { Brought S.Store (D.needs companion) (D.brings companion)
            self.old self.new result }
        ensures still { FailsStill S.Store self.old self.new result }
        ensures behaves { Behaves S.Store self.old self.new result }
        ensures crash { LeavesBoth S.Store (D.needs companion) (D.brings companion)
            self.old self.new (λ a. archive.capture a body.now (number_of_day day) paths.now) }
    {
        let count = paths.as_slice().len() as u64;
        if self.next > NUMBERS || count > NUMBERS - self.next {
            return Err(StoreFault::Refused(ArchiveRefusal::Full));
        }
        let first = self.next as u32;
        let lines = self.new_lines(first, day, paths)?;
        let dues = due_rows(self.alloc, lines.as_slice())?;
        let number = capture_number(day);
        self.place_capture(first, body, number, paths, dues.as_slice(), companion)?;
        Ok(lines)
    }
}

/// The number of a capture day.
fn capture_number(day: Date) -> u32
    requires { IsCaptureDay day }
    ensures number { result ≡ number_of_day day }
    ensures small { result ≤ 84005 }
{
    day_number(day) as u32
}
