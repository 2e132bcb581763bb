//! What is read of the records of an archive of volumes: one volume after another is lent to a reader.

ghost use Rattle.std.specs.Prelude.{◌≡◌, false, IfOk, OnOk};
ghost use Rattle.cli_readings.specs.VolumeReads.{ReadsFound};
ghost use Rattle.cli_tasks.specs.Commands.{AreAsked};
ghost use Rattle.cli_tasks.specs.Plans.{HaveOnePlan};
ghost use Rattle.cli_tasks.specs.Readings.{AreOfVolumes, ExportsOver, GoesWell, ListsOver, ListsToOutput, ReadsEach, ReadsIn, ReadsTyped, ReportsOver};

use crate::archives::{Archives, Work};
use crate::volume_numbers::{FOLDER_FORGOTTEN, judge_forgotten, judge_numbers};
use crate::volume_plans::judge_plans;
use crate::volume_row::Volumes;
use choice_words::TypedChoice;
use class_plan::Date;
use cli_choice::{Questions, choice_in_volume};
use cli_console::{Failure, Joined, Sink, StandardOutput, day_or_today};
use cli_history::Titles;
use cli_readings::{VolumeExport, VolumeList, VolumeReader, VolumeReport, judge_choice};
use command_lines::archives::{Choice, Listing, Target};
use record_store::Store;
use sqlite::{Alter, Connection};

/// A reader, and what it has come to in the volumes that it has read.
#[derive(Drop)]
struct Reading<R> {
    reader: R,
    joined: Joined,
}

impl<R: VolumeReader> Reading<R> {
    /// Has the reader read the records of a choice in a volume. What is bad data and was reported lets it go on.
    fn read<S: Alter>(
        self,
        rt: &HostRuntime,
        archive: &mut Store<S>,
        volume: u32,
        choice: &Choice<'_>,
        questions: &Questions,
    ) -> Result<Reading<R>, Failure>
        ensures { IfOk result (λ x. GoesWell self x (ReadsFound S.Store (R.takes volume)
            choice.now questions.now archive.old archive.new.conn)) }
    {
        let Reading { reader, joined } = self;
        let mut reader = reader;
        let mut joined = joined;
        let done = reader.read_volume(rt, archive, volume, choice, questions);
        joined.add(done)?;
        Ok(Reading { reader, joined })
    }
}

/// Has a reader read the records of a choice in a volume.
#[derive(Drop)]
struct ReadVolume<'l, 'a, R> {
    volume: u32,
    choice: &'l Choice<'a>,
    questions: &'l Questions,
    reading: Reading<R>,
}

impl<R: VolumeReader> Work for ReadVolume<'_, '_, R> {
    type Answer = Reading<R>;

    ghost does = { λ S g it before done after. IfOk done (λ x. GoesWell it.reading x
        (ReadsFound g (R.takes it.volume) it.choice.now it.questions.now before after)) };

    fn work<S: Alter>(
        self,
        rt: &HostRuntime,
        archive: Store<S>,
    ) -> (Connection<S>, Result<Reading<R>, Failure>) {
        let ReadVolume {
            volume,
            choice,
            questions,
            reading,
        } = self;
        let mut archive = archive;
        let read = reading.read(rt, &mut archive, volume, choice, questions);
        (archive.into_connection(), read)
    }
}

/// Lends a volume to a reader of the records of a choice.
fn read_in<A: Archives, R: VolumeReader>(
    rt: &HostRuntime,
    archives: &A,
    volumes: Volumes<'_>,
    volume: u32,
    choice: &Choice<'_>,
    questions: &Questions,
    reading: Reading<R>,
) -> Result<Reading<R>, Failure>
    ensures { IfOk result (λ x. GoesWell reading x (ReadsIn A.Kept.Store
        (A.is_at archives.now) volumes.entry.folder.now R.takes questions.now volume choice.now)) }
{
    let work = ReadVolume {
        volume,
        choice,
        questions,
        reading,
    };
    volumes.lend(rt, archives, volume, work)
}

/// Lends a volume to a reader of its records that are asked for. One of which none is asked for is not opened.
fn read_typed<A: Archives, R: VolumeReader>(
    rt: &HostRuntime,
    archives: &A,
    volumes: Volumes<'_>,
    volume: u32,
    typed: &TypedChoice<'_>,
    questions: &Questions,
    reading: Reading<R>,
) -> Result<Reading<R>, Failure>
    ensures { IfOk result (λ x. GoesWell reading x (ReadsTyped A.Kept.Store
        (A.is_at archives.now) volumes.entry.folder.now R.takes questions.now typed.now volume)) }
{
    match choice_in_volume(rt.alloc(), typed, volume)? {
        Some(choice) => read_in(rt, archives, volumes, volume, &choice, questions, reading),
        None => Ok(reading),
    }
}

/// Lends the volumes to a reader of the records of a choice, one after another, in the order of their numbers. What is bad data in one
/// and was reported lets it go on; any other failure is the end.
fn read_each<A: Archives, R: VolumeReader>(
    rt: &HostRuntime,
    archives: &A,
    volumes: Volumes<'_>,
    typed: &TypedChoice<'_>,
    questions: &Questions,
    reader: R,
) -> Result<Reading<R>, Failure>
    ensures { IfOk result (λ x. x.joined.is_refused ≡ false → ReadsEach A.Kept.Store
        (A.is_at archives.now) volumes.entry.folder.now R.takes questions.now typed.now
        volumes.entry.last reader x.reader) }
{
    let mut reading = Reading {
        reader,
        joined: Joined::new(),
    };
    for below in 0..volumes.last {
        reading = read_typed(rt, archives, volumes, below + 1, typed, questions, reading)?;
    }
    Ok(reading)
}

/// Finds that a choice is one over volumes up to the last one, and what it asks of messages.
fn judge_typed_choice(
    rt: &HostRuntime,
    last: u32,
    typed: &TypedChoice<'_>,
) -> Result<Questions, Failure>
    ensures numbers { OnOk result (AreOfVolumes typed.now last) }
    ensures asked { IfOk result (λ q. AreAsked typed.now.alone q) }
{
    judge_numbers(rt, last, typed)?;
    let questions = judge_choice(rt, &typed.alone)?;
    Ok(questions)
}

/// Lists the records of a choice to a sink. Where a number that is typed by itself is not found in a volume, which is reported, the
/// others are listed all the same.
fn list_to<A: Archives, K: Sink + Drop>(
    rt: &HostRuntime,
    archives: &A,
    volumes: Volumes<'_>,
    typed: &TypedChoice<'_>,
    listing: Listing,
    sink: K,
) -> Result<K, Failure>
    ensures { IfOk result (ListsOver A.Kept.Store (A.is_at archives.now) volumes.entry.folder.now
        K.written typed.now listing volumes.entry.last sink) }
{
    let questions = judge_typed_choice(rt, volumes.last, typed)?;
    let list = VolumeList::new(rt, listing, sink);
    let reading = read_each(rt, archives, volumes, typed, &questions, list)?;
    let Reading { reader, joined } = reading;
    let written = reader.end()?;
    joined.end()?;
    Ok(written)
}

/// Lists the records of a choice, volume by volume, in the order of their numbers. Where a number that is typed by itself is not
/// found in one, which is reported, the others are listed all the same.
pub fn list<A: Archives>(
    rt: &HostRuntime,
    archives: &A,
    volumes: Volumes<'_>,
    typed: &TypedChoice<'_>,
    listing: Listing,
) -> Result<(), Failure>
    ensures { OnOk result (ListsToOutput A.Kept.Store (A.is_at archives.now)
        volumes.entry.folder.now typed.now listing volumes.entry.last) }
{
    let output = StandardOutput::new(rt);
    let _written = list_to(rt, archives, volumes, typed, listing, output)?;
    Ok(())
}

/// Exports the records of a choice to a folder, volume by volume, in the order of their numbers. What is bad data in a volume and is
/// reported lets the others be exported all the same; any other failure cuts the export off, which has no index then. `Usage` where
/// the folder reads as numbers of records, before which it was forgotten, and where a number is typed without its volume; `BadData`
/// where there is no such volume, and where no record is found in any.
pub fn export<'a, A: Archives>(
    rt: &HostRuntime,
    archives: &A,
    volumes: Volumes<'_>,
    typed: &TypedChoice<'_>,
    target: Target<'a>,
) -> Result<(), Failure>
    ensures { OnOk result (ExportsOver A.Kept.Store (A.is_at archives.now)
        volumes.entry.folder.now typed.now target.entry volumes.entry.last) }
{
    judge_forgotten(rt, target.folder, FOLDER_FORGOTTEN)?;
    let questions = judge_typed_choice(rt, volumes.last, typed)?;
    let export = VolumeExport::new(rt, target, volumes.last);
    let reading = read_each(rt, archives, volumes, typed, &questions, export)?;
    let Reading { reader, joined } = reading;
    reader.end(rt, volumes.folder, typed, joined)
}

/// Reads the titles of classes.
#[derive(Drop)]
struct ReadTitles;

impl Work for ReadTitles {
    type Answer = Titles;

    fn work<S: Alter>(
        self,
        rt: &HostRuntime,
        archive: Store<S>,
    ) -> (Connection<S>, Result<Titles, Failure>) {
        let mut archive = archive;
        let titles = Titles::of(rt, &mut archive);
        (archive.into_connection(), titles)
    }
}

/// Writes a report by a day, which is today where none is given, on the records of a choice in all volumes, by the plan of the archive and
/// the titles of its classes, which are those of the last volume. Nothing is written where a volume cannot be read. `BadData` where
/// one has another plan, and where a number that is typed by itself is not found in one, which is reported.
pub fn report<A: Archives>(
    rt: &HostRuntime,
    archives: &A,
    volumes: Volumes<'_>,
    typed: &TypedChoice<'_>,
    day: Option<Date>,
) -> Result<(), Failure>
    ensures reports { OnOk result (ReportsOver A.Kept.Store (A.is_at archives.now)
        volumes.entry.folder.now typed.now day volumes.entry.last) }
    ensures one_plan { OnOk result (HaveOnePlan (A.is_at archives.now) volumes.entry.folder.now
        volumes.entry.last) }
{
    let questions = judge_typed_choice(rt, volumes.last, typed)?;
    let by_day = day_or_today(rt, day)?;
    judge_plans(rt, archives, volumes)?;
    let plan = volumes.plan(rt, archives)?;
    let titles = volumes.lend(rt, archives, volumes.last, ReadTitles)?;
    let report = VolumeReport::new(rt, &plan, by_day)?;
    let reading = read_each(rt, archives, volumes, typed, &questions, report)?;
    let Reading { reader, joined } = reading;
    joined.end()?;
    reader.write(rt, &plan, volumes.folder, typed, &titles)
}
