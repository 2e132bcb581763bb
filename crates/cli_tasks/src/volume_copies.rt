//! `copy` over an archive of volumes: a new folder with a copy of each.

ghost use Rattle.std.specs.Prelude.{◌≡◌, IfOk, Ok, OnOk, string_bytes};
ghost use Rattle.cli_volumes.specs.Names.{draft_of};
ghost use Rattle.cli_tasks.specs.Copies.{CopiesIn, CopiesOver};
ghost use Rattle.cli_tasks.specs.Works.{EachVolume, OverVolumes};

use crate::archives::{Archives, not_made};
use crate::copy::{Copying, Damage, Paths};
use crate::rolling::{had, no_volumes};
use crate::volume_numbers::{COPY_FORGOTTEN, judge_forgotten};
use crate::volume_row::Volumes;
use cli_console::{Failure, write_text};
use cli_readings::Summary;
use cli_volumes::{Sheet, begin_copy, end_copy, lock_folder, path_of, remove_copy, row_in};
use std::alloc::{AllocError, Global};
use tool_texts::{Shown, put};

/// How much of the volumes was copied.
#[derive(Clone, Copy)]
struct Copied {
    /// How many records, destroyed ones too.
    records: u64,
    messages: u64,
    /// How many octets the messages have.
    octets: u64,
}

impl Copied {
    /// Nothing yet.
    fn none() -> Copied {
        Copied {
            records: 0,
            messages: 0,
            octets: 0,
        }
    }

    /// Adds what was copied of a volume.
    fn add(&mut self, volume: &Summary) {
        self.records = self.records.saturating_add(volume.records);
        self.messages = self.messages.saturating_add(volume.messages);
        self.octets = self.octets.saturating_add(volume.octets);
    }
}

/// Copies a volume to its place in another folder.
fn copy_volume<A: Archives>(
    rt: &HostRuntime,
    archives: &A,
    volumes: Volumes<'_>,
    volume: u32,
    folder: &str,
    damage: Damage,
) -> Result<Summary, Failure>
    ensures { OnOk result (CopiesIn A.Kept.Store (A.is_at archives.now)
        volumes.entry.folder.now folder.now volume) }
{
    let from = path_of(rt.alloc(), volumes.folder, volume)?;
    let to = path_of(rt.alloc(), folder, volume)?;
    let store = from.as_str();
    let new = to.as_str();
    let paths = Paths { store, new };
    let work = Copying {
        archives,
        paths,
        damage,
        volume: Some(volume),
    };
    volumes.lend(rt, archives, volume, work)
}

/// Copies each volume to its place in another folder, upwards, and answers how much that is.
fn copy_each<A: Archives>(
    rt: &HostRuntime,
    archives: &A,
    volumes: Volumes<'_>,
    folder: &str,
    damage: Damage,
) -> Result<Copied, Failure>
    ensures { OnOk result (EachVolume volumes.entry.last (CopiesIn A.Kept.Store
        (A.is_at archives.now) volumes.entry.folder.now folder.now)) }
{
    let mut copied = Copied::none();
    for below in 0..volumes.last {
        let volume = copy_volume(rt, archives, volumes, below + 1, folder, damage)?;
        copied.add(&volume);
    }
    Ok(copied)
}

/// Gives the draft of a folder its place once each volume was copied to it, and answers how much that is.
fn place(
    rt: &HostRuntime,
    volumes: Volumes<'_>,
    draft: &str,
    new: &str,
    copied: Result<Copied, Failure>,
) -> Result<Copied, Failure>
    ensures { IfOk result (λ x. copied ≡ Ok x) }
{
    let copied = copied?;
    let row = had(rt, volumes.folder, row_in(rt, volumes.folder))?;
    let sheet = Sheet {
        size: row.sheet.size,
        begun: volumes.last,
    };
    match end_copy(rt, draft, new, sheet) {
        Ok(()) => Ok(copied),
        Err(cause) => Err(not_made(no_volumes(rt, new, cause))),
    }
}

/// The same. Where the folder does not get its place, its draft is removed.
fn settle(
    rt: &HostRuntime,
    volumes: Volumes<'_>,
    draft: &str,
    new: &str,
    copied: Result<Copied, Failure>,
) -> Result<Copied, Failure>
    ensures { IfOk result (λ x. copied ≡ Ok x) }
{
    let settled = place(rt, volumes, draft, new, copied);
    if settled.is_err() {
        remove_copy(rt, draft, volumes.last)?;
    }
    settled
}

/// How much of so many volumes was copied.
fn copied_line(alloc: Global, volumes: u32, copied: Copied) -> Result<Shown, AllocError> {
    let mut line = Shown::new(alloc);
    put!(line; "copied volumes " value(&volumes) " records " value(&copied.records) " messages "
        value(&copied.messages) " octets " value(&copied.octets))?;
    line.end_line()?;
    Ok(line)
}

/// Makes the draft of a folder that is to have its place at a path, and answers its path. `CannotMake` where anything is there, or such a
/// draft.
fn begin_draft(rt: &HostRuntime, new: &str) -> Result<String, Failure>
    ensures { IfOk result (λ draft. string_bytes draft ≡ draft_of new.now) }
{
    match begin_copy(rt, new) {
        Ok(draft) => Ok(draft),
        Err(cause) => Err(not_made(no_volumes(rt, new, cause))),
    }
}

/// Makes a new folder, at a path where nothing is, with a copy of each volume of the archive in a folder, as `copy_to` makes one of a
/// store. It has its path once all are copied; where that fails, nothing is left there. `Usage` where the path reads as numbers of records,
/// `CannotMake` where anything is there, and `TryAgain` where another program begins a volume, or sets a plan or titles.
pub fn copy_volumes<A: Archives>(
    rt: &HostRuntime,
    archives: &A,
    folder: &str,
    new: &str,
    is_damaged: bool,
) -> Result<(), Failure>
    ensures { OnOk result (OverVolumes (CopiesOver A.Kept.Store (A.is_at archives.now) folder.now
        new.now)) }
{
    judge_forgotten(rt, new, COPY_FORGOTTEN)?;
    let _lock = had(rt, folder, lock_folder(rt, folder))?;
    let volumes = Volumes::of(rt, folder)?;
    let begun = begin_draft(rt, new)?;
    let draft = begun.as_str();
    let made = copy_each(rt, archives, volumes, draft, Damage::of(is_damaged));
    let copied = settle(rt, volumes, draft, new, made)?;
    write_text(rt, &copied_line(rt.alloc(), volumes.last, copied)?)
}
