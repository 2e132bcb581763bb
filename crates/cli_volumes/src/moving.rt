//! Files that are moved to a folder, and folders that get their names once they are whole.

ghost use Rattle.std.specs.Prelude.{◌≡◌, IfOk, string_bytes};
ghost use Rattle.cli_volumes.specs.Names.{draft_of};

use crate::fault::NoVolumes;
use crate::making::{FOLDER_MODE, fill_folder, judge_free, remove_frame, settle};
use crate::names::{draft_of, path_of, without_slash};
use crate::row::row_in;
use crate::sheet::Sheet;
use std::alloc::AllocError;
use std::fs::{self, DirBuilder};
use std::io::{self, ErrorKind};
use std::os::unix::fs::DirBuilderExt;

/// The log beside a store has no more octets where all that it had is in the file.
const EMPTY_LOG: u64 = 41;

/// The folder in which something at a path is.
fn folder_of(path: &str) -> &str {
    match path.rsplit_once('/') {
        Some(("", _)) => "/",
        Some((folder, _)) => folder,
        None => ".",
    }
}

/// Finds that nothing is at the path of a new folder. Else `There`; `Unfinished` where a run of `create` that did not end has left a
/// folder without a volume.
pub fn judge_new_folder(rt: &HostRuntime, folder: &str) -> Result<(), NoVolumes> {
    match judge_free(rt, folder) {
        Err(NoVolumes::There) => match row_in(rt, folder) {
            Err(NoVolumes::Unfinished) => Err(NoVolumes::Unfinished),
            _ => Err(NoVolumes::There),
        },
        judged => judged,
    }
}

/// Finds that a path is not that of a link. Else `Link`. Of a path where nothing is, this says nothing.
pub fn judge_own_name(rt: &HostRuntime, path: &str) -> Result<(), NoVolumes> {
    match fs::symlink_metadata(rt, path) {
        Ok(found) if found.is_symlink() => Err(NoVolumes::Link),
        _ => Ok(()),
    }
}

/// Finds that the log beside a store has nothing that is not in its file. Else `Changed`.
fn judge_log(rt: &HostRuntime, file: &str) -> Result<(), NoVolumes> {
    let log = format!(in rt.alloc(); "{file}-wal")?;
    match fs::metadata(rt, log.as_str()) {
        Ok(found) if found.len() > EMPTY_LOG => Err(NoVolumes::Changed),
        Ok(_) => Ok(()),
        Err(error) if error.kind() == ErrorKind::NotFound => Ok(()),
        Err(error) => Err(NoVolumes::from(error)),
    }
}

/// Why a file was not moved.
fn not_moved(error: io::Error) -> NoVolumes {
    match error.kind() {
        ErrorKind::CrossesDevices => NoVolumes::Elsewhere,
        _ => NoVolumes::from(error),
    }
}

/// Moves the file of a store to the place of the first volume of a folder. `There` where anything is in that place; `Changed` where the
/// log beside the file has something that is not in it, and `Elsewhere` where the folder lies on another file system: then it stays where
/// it is. `Unsettled` where it was moved, and the disk failed. The caller has the lock of the folder, and that of the store.
pub fn move_to_first(rt: &HostRuntime, file: &str, folder: &str) -> Result<(), NoVolumes> {
    let first = path_of(rt.alloc(), folder, 1)?;
    judge_free(rt, first.as_str())?;
    judge_log(rt, file)?;
    fs::rename(rt, file, first.as_str()).map_err(not_moved)?;
    settle(rt, folder)
        .and_then(|()| settle(rt, folder_of(file)))
        .map_err(|_| NoVolumes::Unsettled)
}

/// Removes the log of a store that was moved, in which nothing is that is not in its file, as far as the system lets it.
pub fn remove_log(rt: &HostRuntime, file: &str) -> Result<(), AllocError> {
    let log = format!(in rt.alloc(); "{file}-wal")?;
    let _ = fs::remove_file(rt, log.as_str());
    Ok(())
}

/// Makes the draft of a folder that is to have its place at a path, and answers its path. `There` where anything is at that path, and
/// `Left` where a run that did not end has left a draft.
pub fn begin_copy(rt: &HostRuntime, new: &str) -> Result<String, NoVolumes>
    ensures { IfOk result (λ draft. string_bytes draft ≡ draft_of new.now) }
{
    judge_free(rt, new)?;
    let draft = draft_of(rt.alloc(), new)?;
    match DirBuilder::new()
        .mode(FOLDER_MODE)
        .create(rt, draft.as_str())
    {
        Ok(()) => Ok(draft),
        Err(error) if error.kind() == ErrorKind::AlreadyExists => Err(NoVolumes::Left),
        Err(error) => Err(NoVolumes::from(error)),
    }
}

/// Writes what the draft of a folder has beside its volumes, and gives it its place at a path. `There` where anything has come there.
pub fn end_copy(rt: &HostRuntime, draft: &str, new: &str, sheet: Sheet) -> Result<(), NoVolumes> {
    fill_folder(rt, draft, sheet)?;
    judge_free(rt, new)?;
    let place = without_slash(new);
    fs::rename(rt, draft, place)?;
    settle(rt, folder_of(place))?;
    Ok(())
}

/// Removes the draft of a folder that has so many volumes at most, as far as the system lets it.
pub fn remove_copy(rt: &HostRuntime, draft: &str, volumes: u32) -> Result<(), AllocError> {
    for below in 0..volumes {
        let volume = path_of(rt.alloc(), draft, below + 1)?;
        let _ = fs::remove_file(rt, volume.as_str());
    }
    remove_frame(rt, draft)
}
