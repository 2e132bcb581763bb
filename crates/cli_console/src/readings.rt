//! How readers take all that is found.

ghost use Rattle.std.specs.Prelude.{◌≡◌, ◌≤◌, ◌++◌, map, IfOk, OnOk};
ghost use Rattle.cli_choice.specs.Reads.{IsReadOf};
ghost use Rattle.record_archive.specs.Archive.{Archive};
ghost use Rattle.record_choice.specs.Entries.{entry_view};
ghost use Rattle.record_choice.specs.Reads.{OnlyReads};
ghost use Rattle.cli_console.specs.Finds.{IsAtEnd, IsBounded, IsFirst, TakesThese, chosen_in, found_ahead, noted_at_end};
ghost use Rattle.cli_console.specs.Turns.{page_view};

use crate::failure::Failure;
use crate::reader::{Reader, take_page};
use crate::search::{HEADERS_PAGE, Search};
use crate::walk::{PAGE, Walk};
use cli_choice::Beside;
use record_choice::{Choice, Repository};
use record_store::{RecordEntry, StoreFault};

impl Search<'_, '_> {
    /// Has a reader take the records that are found from where the search stands to its end: each of these once, in the order
    /// of their numbers, and no other. A failure is that of the store, that of the reader, or no memory.
    pub fn read_found<R: Repository<Fault = StoreFault>, K: Reader>(
        &mut self,
        rt: &HostRuntime,
        archive: &mut R,
        reader: &mut K,
    ) -> Result<(), Failure>
        requires { IsBounded self.old }
        ensures reads { OnlyReads R.clean R.stands archive.old archive.new }
        ensures taken { OnOk result (IsReadOf R.clean R.stands archive.old archive.new
            (λ a. TakesThese K.takes reader.old a (found_ahead self.old a) reader.new)) }
        ensures ended { OnOk result (IsReadOf R.clean R.stands archive.old archive.new
            (λ a. IsAtEnd self.old a self.new)) }
    {
        self.read(rt, archive, Beside::Nothing, PAGE, reader)
    }

    /// The same, with what the headers of their messages say, where something is asked of these.
    pub fn read_with_headers<R: Repository<Fault = StoreFault>, K: Reader>(
        &mut self,
        rt: &HostRuntime,
        archive: &mut R,
        reader: &mut K,
    ) -> Result<(), Failure>
        requires { IsBounded self.old }
        ensures reads { OnlyReads R.clean R.stands archive.old archive.new }
        ensures taken { OnOk result (IsReadOf R.clean R.stands archive.old archive.new
            (λ a. TakesThese K.takes reader.old a (found_ahead self.old a) reader.new)) }
        ensures ended { OnOk result (IsReadOf R.clean R.stands archive.old archive.new
            (λ a. IsAtEnd self.old a self.new)) }
    {
        self.read(rt, archive, Beside::Headers, HEADERS_PAGE, reader)
    }

    /// The next records that are found, one at least; `None` where none is found to the end. A failure is that of the store, or
    /// no memory.
    pub fn next_found<R: Repository<Fault = StoreFault>>(
        &mut self,
        rt: &HostRuntime,
        archive: &mut R,
    ) -> Result<Option<Vec<RecordEntry>>, Failure>
        requires { IsBounded self.old }
        ensures reads { OnlyReads R.clean R.stands archive.old archive.new }
        ensures first { IfOk result (λ o. IsReadOf R.clean R.stands archive.old archive.new
            (λ a. IsFirst (found_ahead self.old a) (page_view o) (found_ahead self.new a))) }
        ensures bounded { OnOk result (IsBounded self.new) }
        ensures typed { OnOk result (self.new.typed.now ≡ self.old.typed.now) }
        ensures noted { OnOk result (IsReadOf R.clean R.stands archive.old archive.new
            (λ a. noted_at_end self.new a ≡ noted_at_end self.old a)) }
    {
        for _ in 0..u64::MAX {
            let Some(page) = self.step(rt, archive, Beside::Nothing, PAGE)? else {
                return Ok(None);
            };
            if !page.found.is_empty() {
                return Ok(Some(page.found));
            }
        }
        Ok(None)
    }

    /// Has a reader take records that were found, and then those that are found from where the search stands to its end.
    pub fn read_on<R: Repository<Fault = StoreFault>, K: Reader>(
        &mut self,
        rt: &HostRuntime,
        archive: &mut R,
        first: &[RecordEntry],
        reader: &mut K,
    ) -> Result<(), Failure>
        requires { IsBounded self.old }
        ensures reads { OnlyReads R.clean R.stands archive.old archive.new }
        ensures taken { OnOk result (IsReadOf R.clean R.stands archive.old archive.new
            (λ a. TakesThese K.takes reader.old a
            (map entry_view first.now ++ found_ahead self.old a) reader.new)) }
        ensures ended { OnOk result (IsReadOf R.clean R.stands archive.old archive.new
            (λ a. IsAtEnd self.old a self.new)) }
    {
        take_page(archive, reader, first, &[])?;
        self.read_found(rt, archive, reader)
    }

    /// As `read_found`, by steps that look at so many records each.
    fn read<R: Repository<Fault = StoreFault>, K: Reader>(
        &mut self,
        rt: &HostRuntime,
        archive: &mut R,
        beside: Beside,
        most: usize,
        reader: &mut K,
    ) -> Result<(), Failure>
        requires some { 1 ≤ most }
        requires bounded { IsBounded self.old }
        ensures reads { OnlyReads R.clean R.stands archive.old archive.new }
        ensures taken { OnOk result (IsReadOf R.clean R.stands archive.old archive.new
            (λ a. TakesThese K.takes reader.old a (found_ahead self.old a) reader.new)) }
        ensures ended { OnOk result (IsReadOf R.clean R.stands archive.old archive.new
            (λ a. IsAtEnd self.old a self.new)) }
    {
        for _ in 0..u64::MAX {
            let Some(page) = self.step(rt, archive, beside, most)? else {
                return Ok(());
            };
            take_page(
                archive,
                reader,
                page.found.as_slice(),
                page.headers.as_slice(),
            )?;
        }
        Ok(())
    }
}

/// Has a reader take each record of a choice once, in the order of their numbers, and no other. A failure is that of the store,
/// that of the reader, or no memory.
pub fn read_chosen<R: Repository<Fault = StoreFault>, K: Reader>(
    rt: &HostRuntime,
    archive: &mut R,
    choice: &Choice,
    reader: &mut K,
) -> Result<(), Failure>
    ensures reads { OnlyReads R.clean R.stands archive.old archive.new }
    ensures taken { OnOk result (IsReadOf R.clean R.stands archive.old archive.new
        (λ a. TakesThese K.takes reader.old a (chosen_in choice.now a) reader.new)) }
{
    let mut walk = Walk::from(choice, 1);
    for _ in 0..u64::MAX {
        let Some(page) = walk.next_page(rt, archive)? else {
            return Ok(());
        };
        take_page(archive, reader, page.as_slice(), &[])?;
    }
    Ok(())
}
