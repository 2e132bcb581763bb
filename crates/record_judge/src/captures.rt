//! Captures that are done again: a message by its seal, and its records.

ghost use Rattle.std.specs.Prelude.{◌≡◌, ◌+◌, ◌++◌, ◌≤◌, ◌^◌, max, Option, OnOk, IfErr, map, length};
ghost use Rattle.record_archive.specs.Archive.{records_of};
ghost use Rattle.record_history.specs.Events as plain;
ghost use Rattle.record_history.specs.Views.{seal_view};
ghost use Rattle.record_judge.specs.Sealed.{AddsMessage, IsDone, IsKept, PushesRecord, PushesRecords, StaysKept, archive_view, record_view};

use crate::faults::Misdeed;
use crate::sealed::{SealedArchive, SealedMessage, SealedRecord};
use record_history::Seal;

/// No record has a number from this one on.
const END_OF_NUMBERS: u64 = 1 << 32;

impl SealedArchive {
    #[tactic(auto, using(crate::proofs::SealedLemmas::message_more, crate::proofs::SealedLemmas::adds_message))]
    pub(crate) fn find_message(&mut self, number: u32, seal: Seal) -> Result<(), Misdeed>
        ensures done { IsDone (plain.FoundMessage number (seal_view seal))
            (archive_view self.old) (archive_view self.new) result }
        ensures kept { OnOk result (StaysKept self.old self.new) }
        ensures added { OnOk result (AddsMessage number (seal_view seal) self.old self.new) }
        ensures cause { IfErr result (λ m. m ≡ Misdeed.NoMemory) }
    {
        self.message_index.note(number)?;
        self.messages.push(SealedMessage { number, seal })?;
        Ok(())
    }

    /// Puts a record behind the others.
    #[tactic(auto, using(crate::proofs::SealedLemmas::pushes_record))]
    fn put_record(&mut self, row: SealedRecord) -> Result<(), Misdeed>
        ensures pushed { OnOk result (PushesRecord (record_view row) self.old self.new) }
        ensures kept { OnOk result (StaysKept self.old self.new) }
        ensures cause { IfErr result (λ m. m ≡ Misdeed.NoMemory) }
    {
        let after = u64::from(row.number) + 1;
        self.record_index.note(self.records.len(), &row)?;
        self.records.push(row)?;
        self.next = self.next.max(after);
        Ok(())
    }

    /// The same, as a finding.
    #[tactic(auto, using(crate::proofs::SealedLemmas::found_as))]
    pub(crate) fn find_record(&mut self, row: SealedRecord) -> Result<(), Misdeed>
        ensures done { IsDone (plain.FoundRecord (record_view row))
            (archive_view self.old) (archive_view self.new) result }
        ensures kept { OnOk result (StaysKept self.old self.new) }
        ensures pushed { OnOk result (PushesRecord (record_view row) self.old self.new) }
        ensures cause { IfErr result (λ m. m ≡ Misdeed.NoMemory) }
    {
        self.put_record(row)
    }

    /// Puts a live record for each path behind the others, numbered upwards from the message's number.
    ///
    /// The caller gives the number of the next record, and as many paths as numbers are left.
    fn push_records(&mut self, first: u32, day: u32, paths: &[&[u8]]) -> Result<(), Misdeed>
        requires next { self.old.next ≡ first }
        requires room { first + length paths.now ≤ 2 ^ 32 }
        ensures pushed { OnOk result (PushesRecords
            (records_of first first day (map (λ p. p.now) paths.now)) self.old self.new) }
        ensures kept { OnOk result (StaysKept self.old self.new) }
        ensures cause { IfErr result (λ m. m ≡ Misdeed.NoMemory) }
    {
        for place in 0..paths.len() {
            let path = Vec::from_slice(self.alloc, paths[place])?;
            self.find_record(SealedRecord {
                number: first + place as u32,
                message: first,
                path,
                day,
                destroyed: false,
            })?;
        }
        Ok(())
    }

    #[tactic(auto, using(crate::proofs::SealedLemmas::capture_laws))]
    pub(crate) fn capture(
        &mut self,
        first: u32,
        seal: Seal,
        day: u32,
        paths: &[&[u8]],
    ) -> Result<(), Misdeed>
        ensures done { IsKept self.old → (filing : Option plain.Filing) → IsDone
            (plain.Captured first (seal_view seal) day filing (map (λ p. p.now) paths.now))
            (archive_view self.old) (archive_view self.new) result }
        ensures kept { OnOk result (StaysKept self.old self.new) }
    {
        if u64::from(first) != self.next {
            return Err(Misdeed::Refused);
        }
        if paths.is_empty() {
            return Ok(());
        }
        if self.next.saturating_add(paths.len() as u64) > END_OF_NUMBERS {
            return Err(Misdeed::Refused);
        }
        self.find_message(first, seal)?;
        self.push_records(first, day, paths)
    }
}
