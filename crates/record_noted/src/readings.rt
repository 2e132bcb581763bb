//! What is read of the archive beside its history. Each call is the store's own of the same name.

ghost use Rattle.std.specs.Prelude.{◌≡◌, map, min, take, option_map, Some, Ok, Err, false, true, IfOk, IsTrue, OnOk};
ghost use Rattle.jiff.specs.Words.{epoch_day};
ghost use Rattle.sqlite.specs.State.{HasCleanDisk};
ghost use Rattle.sqlite.specs.Held.{state};
ghost use Rattle.class_plan.specs.Schedules.{IsInRange};
ghost use Rattle.record_tables.specs.Steps.{CommitsNothing};
ghost use Rattle.record_archive.specs.Archive as archive;
ghost use Rattle.record_archive.specs.Archive.{Archive, due_list_on};
ghost use Rattle.record_archive.specs.Lines.{line_view};
ghost use Rattle.record_choice.specs.Entries.{entries_from, entry_of, entry_view, OfRecord};
ghost use Rattle.record_store.specs.Stores.{Falls, IsOpenOnOk, LacksRecord};
ghost use Rattle.record_noted.specs.Histories.{IsTrouble, KeepsLines, StandsTold};
ghost use Rattle.record_noted.specs.Readings.{IsScheduleOfRecord, LeavesToldNow, ReadsWith};

use crate::store::NotedStore;
use class_plan::{Date, Plan, Schedule};
use record_archive::ArchiveRefusal;
use record_choice::{RecordEntry, Repository};
use record_store::{Line, StoreFault};
use sqlite::Alter;

impl<S: Alter> NotedStore<S> {
    /// The archive's present plan.
    pub fn plan(&self) -> &Plan
        ensures { result.now ≡ self.now.store.plan }
    {
        self.store.plan()
    }

    /// The number that the next record gets. Where none is left it is the last one, and a capture is refused.
    pub fn next_record(&self) -> u32
        ensures { result ≡ min self.now.store.next 4294967295 }
    {
        u32::try_from(self.store.next_number()).unwrap_or(u32::MAX)
    }

    /// Finds that the connection is open, as `Store::ensure_open`.
    pub fn ensure_open(&mut self) -> Result<(), StoreFault>
        ensures stands { (a : Archive) → StandsTold S.Store self.old a
            → StandsTold S.Store self.new a }
        ensures lines { KeepsLines S.Store self.old self.new }
        ensures plan { self.new.store.plan ≡ self.old.store.plan }
        ensures next { self.new.next ≡ self.old.next }
        ensures falls { Falls S.Store self.old.store self.new.store }
        ensures open { IsOpenOnOk S.Store self.new.store result }
        ensures trouble { IsTrouble result }
        ensures crash { CommitsNothing S.Store self.old.store.conn self.new.store.conn }
    {
        self.store.ensure_open()
    }

    /// Whether no transaction is open, as between any two calls. While the connection is open, all that a crash may then
    /// leave keeps the archive that the store stands for, beside a history that explains it.
    pub fn is_idle(&self) -> bool
        ensures value { (a : Archive) → StandsTold S.Store self.now a → result ≡ true }
        ensures left { LeavesToldNow S.Store self.now }
    {
        self.store.is_idle()
    }

    /// Whether more than one live record has a message, of those messages that a live record has.
    pub fn is_shared(&self, message: u32) -> bool
        ensures { (a : Archive) (r : archive.Record) → StandsTold S.Store self.now a
            → archive.record_at a r.number ≡ Some r → r.destroyed ≡ false → r.message ≡ message
            → result ≡ archive.is_shared a r }
    {
        self.store.is_shared(message)
    }

    /// The records from a number on, in the order of their numbers, at most `most` of them. The only refusals are 89
    /// (`sqlite`) and 99 (no memory).
    pub fn entries(&mut self, from: u32, most: usize) -> Result<Vec<RecordEntry>, StoreFault>
        ensures { ReadsWith S.Store self.old self.new result
            (λ a v. map entry_view v.items ≡ take most (entries_from a from)) (λ a f. ⊥) }
    {
        self.store.entries(from, most)
    }

    /// The record with a number. Refused with 80 (no such record), 89 (`sqlite`) or 99 (no memory).
    pub fn entry(&mut self, number: u32) -> Result<RecordEntry, StoreFault>
        ensures { ReadsWith S.Store self.old self.new result
            (λ a e. OfRecord a number (λ r. entry_view e ≡ entry_of a r))
            (λ a f. f ≡ ArchiveRefusal.NoRecord) }
    {
        let mut entries = self.entries(number, 1)?;
        match entries.pop() {
            Some(entry) if entry.number == number => Ok(entry),
            _ => Err(StoreFault::Refused(ArchiveRefusal::NoRecord)),
        }
    }

    /// The schedule of a record's class. Refused with 80 (no such record), 89 (`sqlite`) or 99 (no memory).
    pub fn schedule_of(&mut self, number: u32) -> Result<Schedule, StoreFault>
        ensures reads { ReadsWith S.Store self.old self.new result (IsScheduleOfRecord number)
            (LacksRecord number) }
        ensures lines { KeepsLines S.Store self.old self.new }
        ensures range { IfOk result (λ s. IsInRange s) }
        ensures next { self.new.next ≡ self.old.next }
        ensures open { HasCleanDisk (state S.Store self.new.store.conn)
            → OnOk result (IsTrue (state S.Store self.new.store.conn).is_open) }
    {
        let record = self.store.record_at(number)?;
        let schedule = self.store.plan().schedule_of(record.path.as_slice());
        Ok(schedule.unwrap_or(Schedule::Permanent))
    }

    /// The octets of a record's message. Refused with 80 (no such record), 84 (destroyed), 89 (`sqlite`) or 99 (no memory).
    pub fn message(&mut self, number: u32) -> Result<Vec<u8>, StoreFault>
        ensures { ReadsWith S.Store self.old self.new result
            (λ a v. archive.message a number ≡ Ok (Some v.items))
            (λ a f. archive.message a number ≡ Err f) }
    {
        self.store.message(number)
    }

    /// The due list of a day. The only refusals are 89 (`sqlite`) and 99 (no memory).
    pub fn due(&mut self, day: Date) -> Result<Vec<Line>, StoreFault>
        ensures reads { ReadsWith S.Store self.old self.new result
            (λ a v. map line_view v.items ≡ due_list_on a (epoch_day day)) (λ a f. ⊥) }
        ensures open { (a : Archive) → StandsTold S.Store self.old a
            → HasCleanDisk (state S.Store self.new.store.conn)
            → IsTrue (state S.Store self.old.store.conn).is_open
            → OnOk result (IsTrue (state S.Store self.new.store.conn).is_open) }
    {
        self.store.due(day)
    }
}
