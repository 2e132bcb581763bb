//! The opening of the files of a store, with a pool of pages that is as large as the file needs it.
//!
//! `Connection::open_from` of the library has one pool of 2,000 pages for each file, which are all made before anything
//! is read. For a small file that takes longer than the rest of the opening.

ghost use Rattle.std.specs.Prelude.{◌≡◌, ◌⊎◌, true, false, None, IsTrue, IfOk, IfErr, IfSome};
ghost use Rattle.sqlite_wal.specs.Files.{image_at};
ghost use Rattle.sqlite_std_file.specs.File.{file_is_usable, IsFresh};
ghost use Rattle.sqlite_store.specs.FileStore.{view};
ghost use Rattle.sqlite.specs.State.{HasCleanDisk};
ghost use Rattle.sqlite.specs.Held.{IsNew};
ghost use Rattle.sqlite.specs.Start.{FindsIn};
ghost use Rattle.sqlite.specs.Files.{file_state, IsOpened, IsBlankAs, IsCleanLeft, FailsToOpenFiles, LeavesFiles};
ghost use Rattle.record_places.specs.Pool.{pool_pages};

use sqlite::{Connection, Error, ErrorCode, FileFrom, FileStore, Files, Leftover, Options, Start};
use sqlite_std_file::OpenError;
use std::hash::{BuildHasher, RandomState};
use std::io::ErrorKind;

/// The octets of a page of a new store.
const PAGE: u64 = 4096;

/// The least and the greatest number of pages that are kept.
const FEWEST: u64 = 128;

const MOST: u64 = 2000;

const CANNOT_OPEN: Error = Error::SqliteFailure(ErrorCode::CannotOpen);

const NO_MEMORY: Error = Error::SqliteFailure(ErrorCode::OutOfMemory);

const BUSY: Error = Error::SqliteFailure(ErrorCode::DatabaseBusy);

/// How many pages of a file with this many octets are kept in memory: all of a small one.
fn pool_pages(octets: u64) -> usize
    ensures { result ≡ pool_pages octets }
{
    (octets / PAGE).max(FEWEST).min(MOST) as usize
}

/// How a file with this many octets is opened.
fn options_for(rt: &HostRuntime, octets: u64) -> Result<Options, Error>
    ensures pool { IfOk result (λ o. o.cache_pages ≡ pool_pages octets) }
    ensures kind { IfErr result (λ e. e ≡ Error.SqliteFailure ErrorCode.CannotOpen) }
{
    let seed = RandomState::new(rt)
        .map_err(|_| CANNOT_OPEN)?
        .hash_one(&0u8);
    let mut options = Options::new(seed);
    options.cache_pages = pool_pages(octets);
    Ok(options)
}

/// Opens the database and its log. Refused for the path `:memory:` and for a URI, which name no file.
fn open_pair<S: Start>(rt: &HostRuntime, path: &str, start: S) -> Result<Files<FileFrom<S>>, Error>
    ensures usable { IfOk result (λ files. IsTrue (file_is_usable S.Start files.log)
        × IsTrue (file_is_usable S.Start files.db)) }
    ensures fresh { IfOk result (λ files. IsFresh true files.log × IsFresh false files.db) }
    ensures kind { IfErr result (λ e. (e ≡ Error.SqliteFailure ErrorCode.CannotOpen)
        ⊎ ((e ≡ Error.SqliteFailure ErrorCode.OutOfMemory)
        ⊎ (e ≡ Error.SqliteFailure ErrorCode.DatabaseBusy))) }
{
    if path == ":memory:" || path.starts_with("file:") {
        return Err(CANNOT_OPEN);
    }
    match sqlite_std_file::open(rt, path, start) {
        Ok(files) => Ok(files),
        Err(OpenError::OutOfMemory) => Err(NO_MEMORY),
        Err(OpenError::Busy) => Err(BUSY),
        Err(OpenError::Io(error)) if error.kind() == ErrorKind::OutOfMemory => Err(NO_MEMORY),
        Err(OpenError::Io(_) | OpenError::HotJournal) => Err(CANNOT_OPEN),
    }
}

/// Opens the store in the file at a path, as `Connection::open_from` does, with a pool for a file of this many octets.
pub(crate) fn open_from<S: Start>(
    rt: &HostRuntime,
    path: &str,
    octets: u64,
    new_has_sums: bool,
    start: S,
) -> Result<Connection<FileStore<FileFrom<S>>>, (Error, Option<Leftover<FileFrom<S>>>)>
    ensures opened { IfOk result (λ c. HasCleanDisk (file_state c) → IsOpened c) }
    ensures found { IfOk result (λ c. HasCleanDisk (file_state c)
        → FindsIn (image_at S.Start) (file_state c)) }
    ensures sums { IfOk result (λ c. HasCleanDisk (file_state c)
        → IsBlankAs new_has_sums (image_at S.Start) → (view c.store).has_sums ≡ new_has_sums) }
    ensures fresh { IfOk result IsNew }
    ensures guarded { IfOk result (λ c. HasCleanDisk (file_state c)
        → (file_state c).IsShielded) }
    ensures unopened { IfErr result (λ e. e.1 ≡ None
        → (e.0 ≡ Error.SqliteFailure ErrorCode.CannotOpen)
        ⊎ ((e.0 ≡ Error.SqliteFailure ErrorCode.OutOfMemory)
        ⊎ (e.0 ≡ Error.SqliteFailure ErrorCode.DatabaseBusy))) }
    ensures cause { IfErr result (λ e. IfSome e.1 (λ left. (files : _)
        × IsFresh true files.log × IsFresh false files.db
        × (IsCleanLeft left → FailsToOpenFiles files left e.0 × LeavesFiles files left))) }
{
    let files = match open_pair(rt, path, start) {
        Ok(files) => files,
        Err(error) => return Err((error, None)),
    };
    let options = match options_for(rt, octets) {
        Ok(options) => options,
        Err(error) => return Err((error, None)),
    };
    match Connection::open_files_with(rt.alloc(), files, options, new_has_sums) {
        Ok(mut conn) => {
            conn.set_clock(rt);
            Ok(conn)
        }
        Err((error, left)) => Err((error, Some(left))),
    }
}
