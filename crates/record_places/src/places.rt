//! What lies at a path, and new files. A look changes nothing, so what only looks takes the file system by `&`.

ghost use Rattle.std.specs.Prelude.{◌≡◌, ◌++◌, [], ◌∷◌, Bool, false, Ok, IfOk, OnOk};
ghost use Rattle.record_places.specs.Looks.{FindsStore, HasJudged, IsFreePlace};
ghost use Rattle.record_places.specs.Calls.{Makes, MayMake, create, owner_only};

use crate::fault::NoPlace;
use crate::file_system::FileSystem;
use std::alloc::Global;
use std::io::{self, ErrorKind};

/// How a database file of SQLite begins.
const MAGIC: &[u8] = b"SQLite format 3\0";

/// The permissions of a new store: its owner alone may read and write it.
const MODE: u32 = 0o600;

/// How many octets the log beside a file has, if there is one.
fn log_octets<F: FileSystem>(files: &F, alloc: Global, path: &str) -> io::Result<u64> {
    let log = format!(in alloc; "{path}-wal")?;
    match files.metadata(log.as_str()) {
        Ok(found) => Ok(found.octets),
        Err(error) if error.kind() == ErrorKind::NotFound => Ok(0),
        Err(error) => Err(error),
    }
}

/// Whether a log with octets lies beside a file.
pub fn has_log<F: FileSystem>(files: &F, alloc: Global, path: &str) -> bool {
    log_octets(files, alloc, path).map_or(true, |octets| octets > 0)
}

/// Whether a log lies beside the store at a path; refused where it lets others read or write than the store does.
pub fn judge_log<F: FileSystem>(files: &F, alloc: Global, path: &str) -> Result<bool, NoPlace>
    ensures { IfOk result (HasJudged F.leads F.shows F.lacks files.now path.now) }
{
    let (store, log) = files.log_path(alloc, path)?;
    match files.symlink_metadata(log.as_str()) {
        Ok(log) if log.is_as_private(store) => Ok(true),
        Ok(_) => Err(NoPlace::OpenLog),
        Err(error) if error.kind() == ErrorKind::NotFound => Ok(false),
        Err(error) => Err(NoPlace::from(error)),
    }
}

/// Finds that a store may be in the file at a path: it is a regular file with one name, may be read and written, and
/// begins as a database does, and its log is none for others. Nothing is made and nothing changes.
pub fn look_at<F: FileSystem>(files: &F, alloc: Global, path: &str) -> Result<(), NoPlace>
    ensures found { OnOk result (FindsStore F.finds files.now path.now) }
    ensures private { OnOk result ((there : Bool)
        × HasJudged F.leads F.shows F.lacks files.now path.now there) }
{
    let found = files.metadata(path)?;
    if !found.may_be_store() {
        return Err(NoPlace::NoFile);
    }
    let first = files.first_octets(alloc, path, MAGIC.len() as u64)?;
    if first.is_empty() {
        return Err(NoPlace::Empty);
    }
    if first.as_slice() != MAGIC {
        return Err(NoPlace::NoDatabase);
    }
    judge_log(files, alloc, path)?;
    Ok(())
}

/// Whether anything is at a path. A link is there, whatever it leads to.
pub fn is_there<F: FileSystem>(files: &F, path: &str) -> io::Result<bool>
    ensures { result ≡ Ok false → F.lacks files.now path.now }
{
    match files.symlink_metadata(path) {
        Ok(_) => Ok(true),
        Err(error) if error.kind() == ErrorKind::NotFound => Ok(false),
        Err(error) => Err(error),
    }
}

/// Whether anything is at the path with this ending.
fn is_beside<F: FileSystem>(files: &F, alloc: Global, path: &str, ending: &str) -> io::Result<bool>
    ensures { result ≡ Ok false → F.lacks files.now (path.now ++ ending.now) }
{
    let beside = format!(in alloc; "{path}{ending}")?;
    is_there(files, beside.as_str())
}

/// Finds that a new store may be made at a path: nothing is there, and no log or journal is beside it, be it empty.
pub fn judge_place<F: FileSystem>(files: &F, alloc: Global, path: &str) -> Result<(), NoPlace>
    ensures { OnOk result (IsFreePlace F.lacks files.now path.now) }
{
    if is_there(files, path)? {
        return Err(NoPlace::There);
    }
    if is_beside(files, alloc, path, "-wal")? || is_beside(files, alloc, path, "-journal")? {
        return Err(NoPlace::StrayLog);
    }
    Ok(())
}

/// Makes an empty file, for its owner alone, at a path where a new store may be made. No other call is made.
pub fn make_file<F: FileSystem>(files: &mut F, alloc: Global, path: &str) -> Result<(), NoPlace>
    ensures calls { Makes F.made files.old files.new (MayMake path.now) }
    ensures made { IfOk result (λ _. Makes F.made files.old files.new
        (λ calls. calls ≡ create path.now owner_only ∷ [])) }
    ensures named { OnOk result (F.has_named files.new path.now) }
    ensures free { OnOk result (IsFreePlace F.lacks files.old path.now) }
{
    judge_place(files, alloc, path)?;
    match files.create(path, MODE) {
        Ok(()) => Ok(()),
        Err(error) => Err(NoPlace::from(error)),
    }
}

/// Finds that the store at a path may be opened, or makes an empty file there, for its owner alone, where nothing is at the
/// path or beside it. Refused where the log of a file that is there lets others read or write than the file does. No
/// other call is made.
pub fn make_ready<F: FileSystem>(files: &mut F, alloc: Global, path: &str) -> Result<(), NoPlace>
    ensures calls { Makes F.made files.old files.new (MayMake path.now) }
{
    match is_there(files, path) {
        Ok(true) => match judge_log(files, alloc, path) {
            Ok(_) => Ok(()),
            Err(fault) => Err(fault),
        },
        Ok(false) => make_file(files, alloc, path),
        Err(error) => Err(NoPlace::from(error)),
    }
}
