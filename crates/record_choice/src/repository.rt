//! Where records are kept that are listed and disposed of.

ghost use Rattle.std.specs.Prelude.{◌≡◌, map, take, option_map, Some, Ok, false, IfOk, OnErr};
ghost use Rattle.jiff.specs.Words.{epoch_day};
ghost use Rattle.record_archive.specs.Archive as archive;
ghost use Rattle.record_archive.specs.Archive.{Archive, IsArchive, Record, due_list_on, record_at};
ghost use Rattle.record_archive.specs.Calls.{Makes};
ghost use Rattle.record_archive.specs.Lines.{line_view};
ghost use Rattle.record_choice.specs.Entries.{OfRecord, entry_of, entry_view, entries_from};
ghost use Rattle.record_choice.specs.Reads.{OnlyReads};

use crate::entry::RecordEntry;
use class_plan::{Date, Plan};
use record_archive::Line;

/// An archive that is kept somewhere, with the calls by which its records are listed and disposed of. The `Store` of
/// `record_store` is one.
///
/// The faults are of a type of their own. So what is proved over any repository can make none up: a fault that it
/// answers was answered by a call of the repository.
pub trait Repository {
    /// Why a call fails.
    type Fault: Drop;

    /// Holds while what is read is what was written.
    ghost clean: { Self → Type 0 };

    /// The archive that is kept.
    ghost stands: { Self → Archive → Type 0 };

    /// The archive's present plan.
    fn plan(&self) -> &Plan
        ensures { (a : Archive) → stands self.now a → result.now ≡ a.plan };

    /// Whether more than one live record has a message, of those messages that a live record has.
    fn is_shared(&self, message: u32) -> bool
        ensures { (a : Archive) (r : Record) → stands self.now a → record_at a r.number ≡ Some r
            → r.destroyed ≡ false → r.message ≡ message → result ≡ archive.is_shared a r };

    /// The records from a number on, in the order of their numbers, at most `most` of them.
    fn entries(&mut self, from: u32, most: usize) -> Result<Vec<RecordEntry>, Self::Fault>
        ensures reads { OnlyReads clean stands self.old self.new }
        ensures told { IfOk result (λ v. clean self.new → (a : Archive) → stands self.old a
            → map entry_view v.items ≡ take most (entries_from a from)) };

    /// The record with a number. Fails where there is none.
    fn entry(&mut self, number: u32) -> Result<RecordEntry, Self::Fault>
        ensures reads { OnlyReads clean stands self.old self.new }
        ensures told { IfOk result (λ e. clean self.new → (a : Archive) → stands self.old a
            → OfRecord a number (λ r. entry_view e ≡ entry_of a r)) };

    /// The octets of a record's message.
    fn message(&mut self, number: u32) -> Result<Vec<u8>, Self::Fault>
        ensures reads { OnlyReads clean stands self.old self.new }
        ensures told { IfOk result (λ v. clean self.new → (a : Archive) → stands self.old a
            → archive.message a number ≡ Ok (Some v.items)) };

    /// The due list of a day.
    fn due(&mut self, day: Date) -> Result<Vec<Line>, Self::Fault>
        ensures reads { OnlyReads clean stands self.old self.new }
        ensures told { IfOk result (λ v. clean self.new → (a : Archive) → stands self.old a
            → map line_view v.items ≡ due_list_on a (epoch_day day)) };

    /// Destroys a record that is due by a day. A failure changes nothing.
    fn destroy(&mut self, number: u32, day: Date) -> Result<(), Self::Fault>
        ensures falls { clean self.new → clean self.old }
        ensures done { IfOk result (λ _. clean self.new → (a : Archive) → stands self.old a
            → Makes (stands self.new) (archive.destroy_on a number (epoch_day day))) }
        ensures failed { OnErr result ((a : Archive) → stands self.old a → stands self.new a) };

    ghost is_archive: { (records : Self) (a : Archive) → stands records a → IsArchive a };
}
