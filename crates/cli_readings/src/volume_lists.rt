//! `list` over an archive of volumes: the records of one volume after another.

ghost use Rattle.std.specs.Prelude.{◌≡◌, IfOk, OnOk};
ghost use Rattle.record_choice.specs.Reads.{OnlyReads};
ghost use Rattle.cli_console.specs.Finds.{TakesThese, found_in};
ghost use Rattle.cli_readings.specs.Ends.{IsEnded};
ghost use Rattle.cli_choice.specs.Reads.{IsReadOf};
ghost use Rattle.cli_readings.specs.VolumeLists.{AddsVolume, Begins, Ends, IsNew, head_unless};

use crate::list::{ListText, add_found, text_before};
use crate::volume_reader::VolumeReader;
use cli_choice::Questions;
use cli_console::{Failure, Search, Sink};
use command_lines::archives::{Choice, Listing};
use record_choice::Repository;
use record_store::{Store, StoreFault};
use sqlite::Alter;

/// A list of the records of several volumes.
#[derive(Drop)]
pub struct VolumeList<'a, K> {
    list: ListText<'a, K>,
    /// Whether what stands before the records is written.
    is_begun: bool,
}

/// What is yet to stand before the records of a list.
fn text_ahead(is_begun: bool, listing: Listing) -> &'static str
    ensures { result.now ≡ head_unless is_begun listing.format listing.headers }
{
    if is_begun { "" } else { text_before(listing) }
}

impl<'a, K: Sink + Drop> VolumeList<'a, K> {
    /// A list without records, of which nothing is written yet.
    pub fn new(rt: &'a HostRuntime, listing: Listing, sink: K) -> VolumeList<'a, K>
        ensures { IsNew listing sink result }
    {
        VolumeList {
            list: ListText::new(rt, listing, sink),
            is_begun: false,
        }
    }

    /// Writes what stands before the records, unless that is done.
    fn begin(&mut self) -> Result<(), Failure>
        ensures { OnOk result (Begins K.written self.old self.new) }
    {
        let text = text_ahead(self.is_begun, self.list.listing);
        self.list.put(text)?;
        self.is_begun = true;
        Ok(())
    }

    /// Adds the records of a volume that meet a choice, and whose messages have what is asked of them. Answers the search, which
    /// is at its end. `BadData` where the class is none of the plan of the volume.
    fn add_volume<'s, 'c, R: Repository<Fault = StoreFault>>(
        &mut self,
        rt: &HostRuntime,
        archive: &mut R,
        volume: u32,
        choice: &'s Choice<'c>,
        questions: &'s Questions,
    ) -> Result<Search<'s, 'c>, Failure>
        ensures reads { OnlyReads R.clean R.stands archive.old archive.new }
        ensures added { OnOk result (IsReadOf R.clean R.stands archive.old archive.new
            (λ a. TakesThese (λ old b es new. AddsVolume K.written b volume old es new) self.old a
            (found_in choice.now questions.now a) self.new)) }
        ensures ended { IfOk result (λ search. IsReadOf R.clean R.stands archive.old archive.new
            (λ a. IsEnded choice.now questions.now a search)) }
    {
        let mut search = Search::new(rt, archive, choice, questions)?;
        self.list.listing.volume = Some(volume);
        self.begin()?;
        add_found(rt, archive, &mut search, &mut self.list)?;
        Ok(search)
    }

    /// Writes what is not written yet, and what stands after the records. Answers the sink.
    pub fn end(self) -> Result<K, Failure>
        ensures { IfOk result (Ends K.written self.entry) }
    {
        let mut whole = self;
        whole.begin()?;
        whole.list.end()?;
        let VolumeList { list, .. } = whole;
        let ListText { sink, .. } = list;
        Ok(sink)
    }
}

impl<K: Sink + Drop> VolumeReader for VolumeList<'_, K> {
    ghost takes = { λ volume old a es new. AddsVolume K.written a volume old es new };

    fn read_volume<S: Alter>(
        &mut self,
        rt: &HostRuntime,
        archive: &mut Store<S>,
        volume: u32,
        choice: &Choice<'_>,
        questions: &Questions,
    ) -> Result<(), Failure> {
        let search = self.add_volume(rt, archive, volume, choice, questions)?;
        search.end_in(rt, archive, Some(volume))
    }
}
