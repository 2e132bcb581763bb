//! `export` over an archive of volumes: the records of one volume after another, with one manifest, one list of sums and one index.

ghost use Rattle.std.specs.Prelude.{◌≡◌, [], IfOk, OnOk, false, true};
ghost use Rattle.record_choice.specs.Reads.{OnlyReads};
ghost use Rattle.cli_console.specs.Finds.{TakesThese, found_in};
ghost use Rattle.cli_history.specs.Walks.{Glances};
ghost use Rattle.cli_readings.specs.Ends.{IsEnded};
ghost use Rattle.cli_choice.specs.Reads.{IsReadOf};
ghost use Rattle.cli_readings.specs.VolumeExports.{Begins, ExportsIn, ExportsVolume, HasAsMuch, HasExported, IsBegunBy, IsNothing, out_of, share_of};

use crate::conditions::conditions_over;
use crate::destination::{Destination, Folder};
use crate::export::{export_history, finish, nothing_exported};
use crate::exporting::Exporting;
use crate::outgoing::Outgoing;
use crate::volume_reader::VolumeReader;
use cli_choice::Questions;
use cli_console::{Failure, Joined, Search, told_now};
use cli_history::Seals;
use command_lines::archives::{Choice, Target, TypedChoice};
use record_choice::Repository;
use record_store::{Store, StoreFault};
use sqlite::Alter;

/// An export of the records of several volumes to one destination.
#[derive(Drop)]
pub(crate) struct ExportOfVolumes<'a, D> {
    exporting: Exporting<'a, D>,
    /// Whether a record was found, for which the destination was made ready.
    is_begun: bool,
}

impl<'a, D: Destination + Drop> ExportOfVolumes<'a, D> {
    /// An export of nothing yet.
    fn new(rt: &'a HostRuntime, destination: D) -> ExportOfVolumes<'a, D>
        ensures nothing { HasExported D.made [] destination result }
        ensures begun { result.is_begun ≡ false }
    {
        let exporting = Exporting::new(rt, Seals::none(rt.alloc()), destination);
        ExportOfVolumes {
            exporting,
            is_begun: false,
        }
    }

    /// Makes the destination ready, unless that is done.
    fn begin(&mut self) -> Result<(), Failure>
        ensures { OnOk result (Begins D.made self.old self.new) }
    {
        let is_begun = self.is_begun;
        if is_begun {
            return Ok(());
        }
        self.exporting.out.destination.prepare()?;
        self.is_begun = true;
        Ok(())
    }

    /// Exports the records of a volume that meet a choice, and whose messages have what is asked of them: each of them once, in the
    /// order of their numbers. Their messages are judged by these seals. Answers the search, which is at its end. Where none is
    /// found, nothing is done. `BadData` where the class is none of the plan of the volume.
    fn add_volume<'s, 'c, R: Repository<Fault = StoreFault>>(
        &mut self,
        rt: &HostRuntime,
        archive: &mut R,
        volume: u32,
        choice: &'s Choice<'c>,
        questions: &'s Questions,
        seals: Seals,
    ) -> Result<Search<'s, 'c>, Failure>
        ensures reads { OnlyReads R.clean R.stands archive.old archive.new }
        ensures added { OnOk result (IsReadOf R.clean R.stands archive.old archive.new
            (λ a. TakesThese (λ old b es new. ExportsVolume D.made (share_of volume b seals es) old
            new) self.old a (found_in choice.now questions.now a) self.new)) }
        ensures begun { OnOk result (IsReadOf R.clean R.stands archive.old archive.new
            (λ a. IsBegunBy (found_in choice.now questions.now a) self.old self.new)) }
        ensures ended { IfOk result (λ search. IsReadOf R.clean R.stands archive.old archive.new
            (λ a. IsEnded choice.now questions.now a search)) }
    {
        let mut search = Search::new(rt, archive, choice, questions)?;
        let Some(first) = search.next_found(rt, archive)? else {
            return Ok(search);
        };
        self.begin()?;
        self.exporting.turn_to(volume, seals);
        search.read_on(rt, archive, first.as_slice(), &mut self.exporting)?;
        Ok(search)
    }

    /// What went out of it; none where no record was found.
    fn into_outgoing(self) -> Option<Outgoing<D>>
        ensures { result ≡ out_of self.entry }
    {
        let ExportOfVolumes {
            exporting,
            is_begun,
        } = self;
        if is_begun {
            Some(exporting.into_outgoing())
        } else {
            None
        }
    }
}

/// An export of the records of several volumes to a folder, in which none of its files is yet.
pub struct VolumeExport<'a> {
    export: ExportOfVolumes<'a, Folder<'a>>,
    target: Target<'a>,
}

impl Drop for VolumeExport<'_> {
    fn drop(self) {
        let VolumeExport {
            export: _,
            target: _,
        } = self;
    }
}

impl<'a> VolumeExport<'a> {
    /// An export of nothing yet, of an archive whose last volume has this number.
    pub fn new(rt: &'a HostRuntime, target: Target<'a>, last: u32) -> VolumeExport<'a>
        ensures { IsNothing result.export }
    {
        let folder = Folder::new(rt, target.folder, Some(last));
        VolumeExport {
            export: ExportOfVolumes::new(rt, folder),
            target,
        }
    }

    /// Tells which records of a volume were left out, since their messages are not the ones that were captured, and writes the events
    /// of its records to a file, where it keeps a history. What stands against that is told, and adds to what the export of the
    /// volume comes to, as that a record was left out does. Does nothing where no record of the volume was found.
    fn end_volume<S: Alter>(
        &mut self,
        rt: &HostRuntime,
        archive: &mut Store<S>,
        volume: u32,
        joined: &mut Joined,
    ) -> Result<(), Failure>
        ensures glances { Glances S.Store archive.old archive.new }
        ensures kept { HasAsMuch self.old.export self.new.export }
        ensures refused { OnOk result (joined.new.is_refused ≡ false
            → joined.old.is_refused ≡ false) }
    {
        let folder = &mut self.export.exporting.out.destination;
        if folder.noted.volume != Some(volume) {
            return Ok(());
        }
        folder.noted.altered.tell_in(rt, Some(volume))?;
        joined.add(folder.noted.altered.end())?;
        let told = export_history(rt, archive, folder)?;
        let told = told.map_err(|failure| failure.in_volume(rt.alloc(), Some(volume)));
        joined.add(told_now(rt, told))
    }

    /// Writes the lists and the index of what was exported, with the folder of the archive and what was asked for, and then how much
    /// it is. Where the index is missing, the export was cut off. `BadData` where no record was found in any volume, and where
    /// something was refused in one, which was reported.
    pub fn end(
        self,
        rt: &HostRuntime,
        folder: &str,
        typed: &TypedChoice<'_>,
        joined: Joined,
    ) -> Result<(), Failure>
        ensures some { OnOk result (self.entry.export.is_begun ≡ true) }
        ensures well { OnOk result (joined.is_refused ≡ false) }
    {
        let VolumeExport { export, target } = self;
        let Some(out) = export.into_outgoing() else {
            joined.end()?;
            return Err(nothing_exported(rt.alloc()));
        };
        let conditions = conditions_over(rt.alloc(), typed)?;
        finish(rt, out, folder, conditions.as_deref(), target)?;
        joined.end()
    }
}

impl VolumeReader for VolumeExport<'_> {
    ghost takes = { λ volume old a es new. ExportsIn volume a es old.export new.export };

    /// Exports the records, and their events, where the volume keeps a history. `BadData` also where a message is not the one that was
    /// captured, and where something stands against the history: that is reported, and all else of the volume is exported.
    fn read_volume<S: Alter>(
        &mut self,
        rt: &HostRuntime,
        archive: &mut Store<S>,
        volume: u32,
        choice: &Choice<'_>,
        questions: &Questions,
    ) -> Result<(), Failure> {
        let mut joined = Joined::new();
        let seals = Seals::of(rt, archive)?;
        let search = self
            .export
            .add_volume(rt, archive, volume, choice, questions, seals)?;
        joined.add(search.end_in(rt, archive, Some(volume)))?;
        self.end_volume(rt, archive, volume, &mut joined)?;
        joined.end()
    }
}
