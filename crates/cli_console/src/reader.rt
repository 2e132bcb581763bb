//! Who takes the records that are found.

ghost use Rattle.std.specs.Prelude.{◌∷◌, ◌++◌, [], List, IfSome, OnOk};
ghost use Rattle.cli_choice.specs.Reads.{IsReadOf};
ghost use Rattle.record_archive.specs.Archive.{Archive};
ghost use Rattle.record_choice.specs.Reads.{OnlyReads};
ghost use Rattle.record_choice.specs.declared.entry.RecordEntry.{RecordEntry};
ghost use Rattle.cli_console.specs.Headers.{AreBeside, IsToldBeside};

use crate::failure::Failure;
use cli_texts::Headers;
use record_choice::Repository;
use record_store::{RecordEntry, StoreFault};

/// Who takes the records that are found, one after another, and only reads the archive.
pub trait Reader {
    /// These records of an archive were taken in this order, and nothing else happened.
    ghost takes: { Self → Archive → List RecordEntry → Self → Type 0 };

    /// Takes the next record, and what the header of its message says, where the search has read that. A failure ends the
    /// reading.
    fn take<R: Repository<Fault = StoreFault>>(
        &mut self,
        archive: &mut R,
        entry: &RecordEntry,
        headers: Option<&Headers>,
    ) -> Result<(), Failure>
        ensures reads { OnlyReads R.clean R.stands archive.old archive.new }
        ensures taken { OnOk result (IsReadOf R.clean R.stands archive.old archive.new
            (λ a. IsToldBeside a entry.now headers.entry
            → takes self.old a (entry.now ∷ []) self.new)) };

    /// Rests, once it has taken what a step of the search found. A failure ends the reading.
    fn rest(&mut self) -> Result<(), Failure>
        ensures { OnOk result ((a : Archive) → takes self.old a [] self.new) }
    {
        Ok(())
    }

    ghost takes_none: { (r : Self) (a : Archive) → takes r a [] r };

    ghost takes_more: { (x y z : Self) (a : Archive) (es fs : List RecordEntry)
        → takes x a es y → takes y a fs z → takes x a (es ++ fs) z };
}

/// Has a reader take the records of a page, each with what its header says, where that was read.
pub(crate) fn take_page<R: Repository<Fault = StoreFault>, K: Reader>(
    archive: &mut R,
    reader: &mut K,
    entries: &[RecordEntry],
    headers: &[Headers],
) -> Result<(), Failure>
    ensures reads { OnlyReads R.clean R.stands archive.old archive.new }
    ensures taken { OnOk result (IsReadOf R.clean R.stands archive.old archive.new
        (λ a. AreBeside a entries.now headers.now → K.takes reader.old a entries.now reader.new)) }
{
    for (at, entry) in entries.iter().enumerate() {
        reader.take(archive, entry, headers.get(at))?;
    }
    reader.rest()
}
