//! Folders of volumes, and volumes that get their names.

use crate::fault::NoVolumes;
use crate::names::{DRAFT, path_in, path_of};
use crate::row::{LOCK, MODE, SHEET, sheet_in};
use crate::sheet::{Sheet, sheet_text};
use std::alloc::AllocError;
use std::fs::{self, DirBuilder, OpenOptions};
use std::io::{self, ErrorKind, Write};
use std::os::unix::fs::{DirBuilderExt, OpenOptionsExt};

/// The permissions of a folder: its owner alone may look into it and change it.
pub(crate) const FOLDER_MODE: u32 = 0o700;

/// The file that takes the place of the one that has the size, once it is whole.
const SHEET_DRAFT: &str = "volumes.mailfile-new";

/// Removes a file, where it is there.
fn remove_if_there(rt: &HostRuntime, path: &str) -> io::Result<()> {
    match fs::remove_file(rt, path) {
        Err(error) if error.kind() != ErrorKind::NotFound => Err(error),
        _ => Ok(()),
    }
}

/// Makes the names in a folder last over a power cut.
pub(crate) fn settle(rt: &HostRuntime, folder: &str) -> io::Result<()> {
    fs::open(rt, folder)?.sync_all()
}

/// Writes octets to a new file, whose owner alone may read and write it, and makes them last.
fn write_new(rt: &HostRuntime, path: &str, octets: &[u8]) -> io::Result<()> {
    let mut file = OpenOptions::new()
        .write(true)
        .create_new(true)
        .mode(MODE)
        .open(rt, path)?;
    file.write_all(octets)?;
    file.sync_all()
}

/// Writes the sheet of a folder in the place of the one that is there. It is whole at every moment.
fn write_sheet(rt: &HostRuntime, folder: &str, sheet: Sheet) -> Result<(), NoVolumes> {
    let alloc = rt.alloc();
    let path = path_in(alloc, folder, SHEET)?;
    let draft = path_in(alloc, folder, SHEET_DRAFT)?;
    let text = sheet_text(alloc, sheet)?;
    remove_if_there(rt, draft.as_str())?;
    write_new(rt, draft.as_str(), text.as_bytes())?;
    fs::rename(rt, draft.as_str(), path.as_str())?;
    settle(rt, folder)?;
    Ok(())
}

/// Notes that so many volumes were begun. The caller has the lock of the folder.
pub fn note_begun(rt: &HostRuntime, folder: &str, begun: u32) -> Result<(), NoVolumes> {
    let sheet = sheet_in(rt, folder)?;
    write_sheet(
        rt,
        folder,
        Sheet {
            size: sheet.size,
            begun,
        },
    )
}

/// Writes the files that a folder of volumes has beside them.
pub(crate) fn fill_folder(rt: &HostRuntime, folder: &str, sheet: Sheet) -> Result<(), NoVolumes> {
    let lock = path_in(rt.alloc(), folder, LOCK)?;
    write_new(rt, lock.as_str(), b"")?;
    write_sheet(rt, folder, sheet)
}

/// Makes a folder for volumes of a size, in which none is begun. `There` where anything is at its path. Where another call fails, the
/// folder is removed.
pub fn create_folder(rt: &HostRuntime, folder: &str, size: u64) -> Result<(), NoVolumes> {
    DirBuilder::new().mode(FOLDER_MODE).create(rt, folder)?;
    let filled = fill_folder(rt, folder, Sheet { size, begun: 0 });
    if filled.is_err() {
        remove_folder(rt, folder)?;
    }
    filled
}

/// Removes a folder that was just made, as far as the system lets it, unless it has a first volume.
pub fn remove_folder(rt: &HostRuntime, folder: &str) -> Result<(), AllocError> {
    let first = path_of(rt.alloc(), folder, 1)?;
    if fs::symlink_metadata(rt, first.as_str()).is_ok() {
        return Ok(());
    }
    remove_frame(rt, folder)
}

/// Removes a folder without volumes, and the files that it has beside them, as far as the system lets it.
pub(crate) fn remove_frame(rt: &HostRuntime, folder: &str) -> Result<(), AllocError> {
    for name in [SHEET_DRAFT, SHEET, LOCK] {
        let path = path_in(rt.alloc(), folder, name)?;
        let _ = fs::remove_file(rt, path.as_str());
    }
    let _ = fs::remove_dir(rt, folder);
    Ok(())
}

/// Finds that nothing is at a path. Else `There`.
pub(crate) fn judge_free(rt: &HostRuntime, path: &str) -> Result<(), NoVolumes> {
    match fs::symlink_metadata(rt, path) {
        Ok(_) => Err(NoVolumes::There),
        Err(error) if error.kind() == ErrorKind::NotFound => Ok(()),
        Err(error) => Err(NoVolumes::from(error)),
    }
}

/// Removes what a killed program has left where a volume is made before it has its name. The caller has the lock of the
/// folder, so that no other program makes it.
pub fn clear_draft(rt: &HostRuntime, folder: &str, volume: u32) -> Result<(), NoVolumes> {
    let path = path_of(rt.alloc(), folder, volume)?;
    let draft = format!(in rt.alloc(); "{path}{DRAFT}")?;
    let log = format!(in rt.alloc(); "{draft}-wal")?;
    remove_if_there(rt, log.as_str())?;
    remove_if_there(rt, draft.as_str())?;
    Ok(())
}

/// Gives a volume that is whole, all of it in the file at `draft` and nothing in its log, its name, and no other. The log is removed
/// before. `There` where anything has that name. The caller has the lock of the folder.
pub fn place_volume(
    rt: &HostRuntime,
    folder: &str,
    draft: &str,
    path: &str,
) -> Result<(), NoVolumes> {
    judge_free(rt, path)?;
    let log = format!(in rt.alloc(); "{draft}-wal")?;
    remove_if_there(rt, log.as_str())?;
    fs::rename(rt, draft, path)?;
    settle(rt, folder)?;
    Ok(())
}
