//! `list --twice` over an archive of volumes.

ghost use Rattle.std.specs.Prelude.{IfOk, OnOk};
ghost use Rattle.cli_tasks.specs.Twins.{
  DoneWithEach,
  Gathers,
  GathersIn,
  ListsTwins,
  ListsTwinsToOutput,
  MakesRows,
  MakesRowsIn,
};

use crate::archives::{Archives, Work};
use crate::volume_row::Volumes;
use cli_console::{Failure, Sink, StandardOutput};
use cli_history::Seals;
use cli_readings::{TwiceGroups, TwiceList};
use command_lines::archives::Listing;
use record_store::Store;
use sqlite::{Alter, Connection};

/// Gathers the live records of a store behind others, by what stands for their messages.
fn gather<S: Alter>(
    rt: &HostRuntime,
    archive: &mut Store<S>,
    volume: u32,
    groups: TwiceGroups,
) -> Result<TwiceGroups, Failure>
    ensures { IfOk result (λ after. Gathers S.Store volume groups after archive.old
        archive.new.conn) }
{
    let seals = Seals::of(rt, archive)?;
    let gathered = groups.gather(rt, archive, volume, seals)?;
    Ok(gathered)
}

/// Gathers the live records of a volume behind those of others.
#[derive(Drop)]
struct GatherVolume {
    volume: u32,
    groups: TwiceGroups,
}

impl Work for GatherVolume {
    type Answer = TwiceGroups;

    ghost does = { λ S g it before done after. IfOk done (λ x. Gathers g it.volume it.groups x
        before after) };

    fn work<S: Alter>(
        self,
        rt: &HostRuntime,
        archive: Store<S>,
    ) -> (Connection<S>, Result<TwiceGroups, Failure>) {
        let GatherVolume { volume, groups } = self;
        let mut archive = archive;
        let gathered = gather(rt, &mut archive, volume, groups);
        (archive.into_connection(), gathered)
    }
}

/// Makes the rows of the records of a volume that are to be listed.
#[derive(Drop)]
struct AddVolume {
    volume: u32,
    list: TwiceList,
}

impl Work for AddVolume {
    type Answer = TwiceList;

    ghost does = { λ S g it before done after. IfOk done (λ x. MakesRows g it.volume it.list x
        before after) };

    fn work<S: Alter>(
        self,
        rt: &HostRuntime,
        archive: Store<S>,
    ) -> (Connection<S>, Result<TwiceList, Failure>) {
        let AddVolume { volume, list } = self;
        let mut archive = archive;
        let added = list.add_volume(rt, &mut archive, volume);
        (archive.into_connection(), added)
    }
}

/// Gathers the live records of all volumes.
fn gather_all<A: Archives>(
    rt: &HostRuntime,
    archives: &A,
    volumes: Volumes<'_>,
    groups: TwiceGroups,
) -> Result<TwiceGroups, Failure>
    ensures { IfOk result (DoneWithEach (GathersIn A.Kept.Store (A.is_at archives.now)
        volumes.entry.folder.now) volumes.entry.last groups) }
{
    let mut groups = groups;
    for below in 0..volumes.last {
        let volume = below + 1;
        groups = volumes.lend(rt, archives, volume, GatherVolume { volume, groups })?;
    }
    Ok(groups)
}

/// Makes the rows of all records that are to be listed.
fn list_all<A: Archives>(
    rt: &HostRuntime,
    archives: &A,
    volumes: Volumes<'_>,
    list: TwiceList,
) -> Result<TwiceList, Failure>
    ensures { IfOk result (DoneWithEach (MakesRowsIn A.Kept.Store (A.is_at archives.now)
        volumes.entry.folder.now) volumes.entry.last list) }
{
    let mut list = list;
    for below in 0..volumes.last {
        let volume = below + 1;
        list = volumes.lend(rt, archives, volume, AddVolume { volume, list })?;
    }
    Ok(list)
}

/// Writes to a sink the live records of all volumes whose messages were captured twice, in groups, in whichever volumes the records of a
/// group are. Each volume is opened twice: to gather its records, and to list those that stand in a group. Answers the sink. Nothing is
/// written where a volume cannot be read.
fn twice_to<A: Archives, K: Sink + Drop>(
    rt: &HostRuntime,
    archives: &A,
    volumes: Volumes<'_>,
    listing: Listing,
    sink: K,
) -> Result<K, Failure>
    ensures { IfOk result (ListsTwins A.Kept.Store (A.is_at archives.now) volumes.entry.folder.now
        K.written listing volumes.entry.last sink) }
{
    let none = TwiceGroups::none(rt.alloc());
    let gathered = gather_all(rt, archives, volumes, none)?;
    let begun = gathered.listed(rt.alloc(), listing)?;
    let whole = list_all(rt, archives, volumes, begun)?;
    let written = whole.write(rt, sink)?;
    Ok(written)
}

/// Writes the live records of all volumes whose messages were captured twice. Nothing is written where a volume cannot be read.
pub fn write_twice<A: Archives>(
    rt: &HostRuntime,
    archives: &A,
    volumes: Volumes<'_>,
    listing: Listing,
) -> Result<(), Failure>
    ensures { OnOk result (ListsTwinsToOutput A.Kept.Store (A.is_at archives.now)
        volumes.entry.folder.now listing volumes.entry.last) }
{
    let output = StandardOutput::new(rt);
    let _written = twice_to(rt, archives, volumes, listing, output)?;
    Ok(())
}
