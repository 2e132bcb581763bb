//! `list --twice` over an archive of volumes.
//!
//! The live records of all volumes are gathered by what stands for their messages, one volume after another. Then the rows of the records
//! that stand in a group are made, one volume after another too, and kept until the groups can be written whole.

ghost use Rattle.std.specs.Prelude.{◌≡◌, ◌≤◌, ◌++◌, ◌∷◌, [], ℕ, List, true, IfOk, IfSome, OnOk, length};
ghost use Rattle.command_lines.specs.declared.archives.Listing.{Listing as Asked};
ghost use Rattle.record_archive.specs.Archive.{Archive};
ghost use Rattle.record_choice.specs.Reads.{OnlyReads};
ghost use Rattle.cli_readings.specs.Groups.{KeyedGroup, records_of};
ghost use Rattle.cli_choice.specs.Reads.{IsReadOf};
ghost use Rattle.cli_readings.specs.Twice.{AddsGroups, IsBeside};
ghost use Rattle.cli_readings.specs.VolumeLists.{in_volume};
ghost use Rattle.cli_readings.specs.VolumeTwice.{
  AddsRow,
  AreTwiceIn,
  HasGathered,
  HasRows,
  HaveRows,
  IsNextIn,
  IsRowIn,
  KeepsRows,
  ListsGroups,
  PushesRows,
  Reading,
  WritesGroups,
};

use crate::groups::{Group, Groups, SealKey, Sealed};
use crate::list::ListText;
use crate::twice::{add_record, gather, text_after, text_before, text_beside, text_first};
use cli_console::{Failure, Sink, Status};
use cli_history::Seals;
use command_lines::archives::Listing;
use record_choice::Repository;
use record_store::StoreFault;
use std::alloc::{AllocError, Global};

/// The live records of several volumes by what stands for their messages. Each takes as much memory, however long its message is.
#[derive(Drop)]
pub struct TwiceGroups {
    groups: Groups,
}

impl TwiceGroups {
    /// No records.
    pub fn none(alloc: Global) -> TwiceGroups
        ensures { (read : Reading) → HasGathered read [] result }
    {
        TwiceGroups {
            groups: Groups::new(alloc),
        }
    }

    /// Adds the live records of a volume, by the seals that its history tells, or else by the octets of their messages. A failure is
    /// that of the store, or no memory.
    pub fn gather<R: Repository<Fault = StoreFault>>(
        self,
        rt: &HostRuntime,
        archive: &mut R,
        volume: u32,
        seals: Seals,
    ) -> Result<TwiceGroups, Failure>
        ensures reads { OnlyReads R.clean R.stands archive.old archive.new }
        ensures gathered { IfOk result (λ after. R.clean archive.new → (read : Reading)
            → R.stands archive.old (read volume).0 → (read volume).1 ≡ seals → (vs : List ℕ)
            → HasGathered read vs self → HasGathered read (vs ++ volume ∷ []) after) }
    {
        let TwiceGroups { groups } = self;
        let groups = gather(rt, archive, volume, seals, groups)?;
        Ok(TwiceGroups { groups })
    }

    /// The groups of those whose messages were captured twice, in the order of their first records, as they are to be listed. None of
    /// the records has a row yet. The only failure is no memory.
    pub fn listed(self, alloc: Global, listing: Listing) -> Result<TwiceList, Failure>
        ensures { IfOk result (λ list. (read : Reading) (vs : List ℕ) → HasGathered read vs self
            → (groups : List KeyedGroup) × AreTwiceIn read vs groups
            × ((kept : ℕ → Archive) → ListsGroups kept listing groups list)) }
    {
        let TwiceGroups { groups } = self;
        let twice = groups.into_twice()?;
        let groups = without_rows(alloc, twice)?;
        Ok(TwiceList { listing, groups })
    }
}

/// Groups of which no record has a row. The only refusal is no memory.
fn without_rows(alloc: Global, twice: Vec<(SealKey, Group)>) -> Result<Vec<GroupRows>, AllocError>
    ensures { IfOk result (λ groups. (kept : ℕ → Archive) (l : Asked)
        → HaveRows kept l twice.items groups.items) }
{
    let mut groups = Vec::new(alloc);
    for keyed in twice {
        groups.push(GroupRows::none(alloc, keyed))?;
    }
    Ok(groups)
}

/// Octets that are kept in memory.
#[derive(Drop)]
struct KeptOctets {
    octets: Vec<u8>,
}

impl Sink for KeptOctets {
    ghost written = { λ kept octets. kept.octets.items ≡ octets };

    fn write(&mut self, octets: &[u8]) -> Result<(), Failure> {
        Ok(self.octets.extend_from_slice(octets)?)
    }
}

/// What is listed of a record of a group. A failure is that of the store, or no memory.
fn row_of_record<R: Repository<Fault = StoreFault>>(
    rt: &HostRuntime,
    archive: &mut R,
    listing: Listing,
    sealed: Sealed,
    beside: &str,
    is_first: bool,
) -> Result<Vec<u8>, Failure>
    ensures reads { OnlyReads R.clean R.stands archive.old archive.new }
    ensures row { IfOk result (λ row. IsReadOf R.clean R.stands archive.old archive.new
        (λ a. IsBeside a listing beside.now is_first sealed row.items)) }
{
    let octets = Vec::new(rt.alloc());
    let mut list = ListText::new(rt, listing, KeptOctets { octets });
    add_record(archive, &mut list, sealed, beside, is_first)?;
    list.write()?;
    let ListText { sink, .. } = list;
    let KeptOctets { octets } = sink;
    Ok(octets)
}

/// How the records of a volume are listed.
fn listing_in(listing: Listing, volume: u32) -> Listing
    ensures { result ≡ in_volume volume listing }
{
    Listing {
        volume: Some(volume),
        ..listing
    }
}

/// A group of records, and the rows of the first of them.
struct GroupRows {
    keyed: (SealKey, Group),
    rows: Vec<Vec<u8>>,
}

impl Drop for GroupRows {
    fn drop(self) {
        let GroupRows { keyed: _, rows: _ } = self;
    }
}

impl GroupRows {
    /// A group without rows.
    fn none(alloc: Global, keyed: (SealKey, Group)) -> GroupRows
        ensures keyed { result.keyed ≡ keyed }
        ensures rows { result.rows.items ≡ [] }
    {
        GroupRows {
            keyed,
            rows: Vec::new(alloc),
        }
    }

    /// The record whose row comes next, where it is one of a volume.
    fn next_in(&self, volume: u32) -> Option<Sealed>
        ensures { IfSome result (IsNextIn self.now volume) }
    {
        let Some(next) = self.keyed.1.record(self.rows.len()) else {
            return None;
        };
        if next.volume == volume {
            return Some(next);
        }
        None
    }

    /// Whether each record has its row.
    fn is_whole(&self) -> bool
        ensures { result ≡ true
            → length (records_of self.now.keyed.1) ≤ length self.now.rows.items }
    {
        self.keyed.1.record(self.rows.len()).is_none()
    }

    /// Adds the row of a record of a volume.
    fn add_row<R: Repository<Fault = StoreFault>>(
        &mut self,
        rt: &HostRuntime,
        archive: &mut R,
        listing: Listing,
        sealed: Sealed,
    ) -> Result<(), Failure>
        ensures reads { OnlyReads R.clean R.stands archive.old archive.new }
        ensures added { OnOk result (IsReadOf R.clean R.stands archive.old archive.new
            (λ a. AddsRow a listing sealed self.old self.new)) }
    {
        let beside = text_beside(rt.alloc(), listing.format, &self.keyed.0)?;
        let is_first = self.rows.is_empty();
        let row = row_of_record(rt, archive, listing, sealed, beside.as_str(), is_first)?;
        self.rows.push(row)?;
        Ok(())
    }
}

/// Adds to a group the rows of its next records, as many as are in a volume.
fn add_rows<R: Repository<Fault = StoreFault>>(
    rt: &HostRuntime,
    archive: &mut R,
    listing: Listing,
    volume: u32,
    rows: GroupRows,
) -> Result<GroupRows, Failure>
    ensures reads { OnlyReads R.clean R.stands archive.old archive.new }
    ensures kept { IfOk result (λ after. R.clean archive.new → (kept : ℕ → Archive)
        → R.stands archive.old (kept volume) → KeepsRows kept listing rows after) }
{
    let mut rows = rows;
    for _ in 0..u64::MAX {
        let Some(next) = rows.next_in(volume) else {
            return Ok(rows);
        };
        rows.add_row(rt, archive, listing_in(listing, volume), next)?;
    }
    Ok(rows)
}

/// Adds rows to a list.
fn push_rows<K: Sink + Drop>(list: &mut ListText<'_, K>, rows: &[Vec<u8>]) -> Result<(), Failure>
    ensures { OnOk result (PushesRows K.written rows.now list.old list.new) }
{
    for row in rows {
        list.push_kept(row.as_slice())?;
    }
    Ok(())
}

/// The failure of a list for which a volume was not read.
fn unread_failure(alloc: Global) -> Failure {
    Failure::told(
        alloc,
        Status::BadData,
        "a volume was not read in its turn, so records are missing from the list",
    )
}

/// Adds a group to a list with the rows of its records, and writes it. `BadData` where one of them has none.
fn write_rows<K: Sink + Drop>(list: &mut ListText<'_, K>, group: &GroupRows) -> Result<(), Failure>
    ensures { OnOk result ((kept : ℕ → Archive) → HasRows kept list.old.listing group.now
        → AddsGroups K.written (IsRowIn kept list.old.listing) list.old (group.now.keyed ∷ [])
        list.new) }
{
    let alloc = list.rt.alloc();
    if !group.is_whole() {
        return Err(unread_failure(alloc));
    }
    let format = list.listing.format;
    let before = text_before(alloc, format, &group.keyed.0, list.count == 0)?;
    list.push(before.as_str())?;
    push_rows(list, group.rows.as_slice())?;
    list.put(text_after(format))?;
    Ok(())
}

/// Adds groups to a list, and writes them one after the other.
fn write_all<K: Sink + Drop>(
    list: &mut ListText<'_, K>,
    groups: &[GroupRows],
) -> Result<(), Failure>
    ensures { OnOk result ((kept : ℕ → Archive) (gs : List KeyedGroup)
        → HaveRows kept list.old.listing gs groups.now
        → AddsGroups K.written (IsRowIn kept list.old.listing) list.old gs list.new) }
{
    for group in groups {
        write_rows(list, group)?;
    }
    Ok(())
}

/// The groups of records that are to be listed, with the rows of those that are in the volumes so far.
#[derive(Drop)]
pub struct TwiceList {
    listing: Listing,
    groups: Vec<GroupRows>,
}

impl TwiceList {
    /// Adds the rows of the records of a volume, which comes after those that were added. A failure is that of the store, or no memory.
    pub fn add_volume<R: Repository<Fault = StoreFault>>(
        self,
        rt: &HostRuntime,
        archive: &mut R,
        volume: u32,
    ) -> Result<TwiceList, Failure>
        ensures reads { OnlyReads R.clean R.stands archive.old archive.new }
        ensures added { IfOk result (λ after. R.clean archive.new → (kept : ℕ → Archive)
            → R.stands archive.old (kept volume) → (l : Asked) (gs : List KeyedGroup)
            → ListsGroups kept l gs self → ListsGroups kept l gs after) }
    {
        let TwiceList { listing, groups } = self;
        let mut added = Vec::new(rt.alloc());
        for group in groups {
            let more = add_rows(rt, archive, listing, volume, group)?;
            added.push(more)?;
        }
        Ok(TwiceList {
            listing,
            groups: added,
        })
    }

    /// Writes the list to a sink: each group once, in their order, with the rows of all of its records. Answers the sink. `BadData` where
    /// the volume of one of them was not added, or not in its turn; another failure is that of the sink, or no memory.
    pub fn write<K: Sink + Drop>(self, rt: &HostRuntime, sink: K) -> Result<K, Failure>
        ensures { IfOk result (λ after. (kept : ℕ → Archive) (l : Asked) (gs : List KeyedGroup)
            → ListsGroups kept l gs self → WritesGroups K.written kept l gs sink after) }
    {
        let TwiceList { listing, groups } = self;
        let mut list = ListText::new(rt, listing, sink);
        let first = text_first(rt.alloc(), listing)?;
        list.push(first.as_str())?;
        write_all(&mut list, groups.as_slice())?;
        list.end()?;
        let ListText { sink, .. } = list;
        Ok(sink)
    }
}
