//! The store in the file at a path, as programs have it.
//!
//! What the files held before, and how a write that a crash cuts short is read, is what `S` says; programs pass
//! `Unknown`. No code knows it, so what is said here holds whatever it is.

ghost use Rattle.std.specs.Prelude.{◌≡◌, ◌++◌, ◌∷◌, [], ℕ, List, false, true, IfOk, OnErr, OnOk};
ghost use Rattle.sqlite.specs.State.{HasCleanDisk};
ghost use Rattle.sqlite.specs.Held.{state};
ghost use Rattle.sqlite.specs.WalReads.{AreClean};
ghost use Rattle.sqlite.specs.WalFiles.{image_at};
ghost use Rattle.sqlite.specs.Files.{file_state, over_files};
ghost use Rattle.record_tables.specs.Tables.{IsApart, IsFree};
ghost use Rattle.record_places.specs.Calls.{Begins, Makes, open_store};
ghost use Rattle.record_places.specs.Looks.{FindsStore, HasJudged, IsFreePlace};
ghost use Rattle.cli_files.specs.Making.{MayOpen, making, removing};
ghost use Rattle.record_archive.specs.Archive.{Archive, empty_archive};
ghost use Rattle.record_store.specs.Layouts.{HasArchiveTables};
ghost use Rattle.record_store.specs.Stores.{StandsFor};
ghost use Rattle.record_files.specs.Files.{FindsAt, HoldsTables, KeepsNew, KeepsTogether, system_file};

use crate::fault::NoStore;
use crate::opening::{close_store, open_store};
use crate::removal::{log_beside, remove_both};
use class_plan::Plan;
use record_files::leave;
use record_places::{FileSystem, has_log, judge_log, look_at, make_file};
use record_store::Store;
use sqlite::{Alter, Connection, FileFrom, FileStore, Files, Start};
use sqlite_disk::Disk;
use std::alloc::Global;

/// The store in the file at a path, which must be there and hold an archive. While the disk returns what was written to
/// it, the store represents the archive that the files held, and what they held are an archive's tables, and no table with a
/// foreign key.
///
/// The file is a regular one, with one name, and its log is as private as it is. Nothing is made, removed or linked. Where
/// the log is found open to others only once the store is open, it is refused all the same, with no further read or write.
pub fn open_archive<F: FileSystem, S: Start>(
    files: &mut F,
    alloc: Global,
    path: &str,
    start: S,
) -> Result<Store<FileStore<FileFrom<S>>>, NoStore>
    ensures stands { IfOk result (λ s. HasCleanDisk (file_state s.conn) → (a : Archive)
        → FindsAt (image_at S.Start) a → StandsFor over_files s a) }
    ensures layout { IfOk result (λ s. HasCleanDisk (file_state s.conn)
        → HoldsTables HasArchiveTables (image_at S.Start)) }
    ensures apart { IfOk result (λ s. HasCleanDisk (file_state s.conn)
        → HoldsTables IsApart (image_at S.Start)) }
    ensures found { OnOk result (FindsStore F.finds files.old path.now) }
    ensures private { OnOk result (HasJudged F.leads F.shows F.lacks files.new path.now true) }
    ensures opens { OnOk result (Makes F.made files.old files.new
        (λ calls. calls ≡ open_store path.now true ∷ [])) }
    ensures tries { OnErr result (Makes F.made files.old files.new (MayOpen path.now)) }
{
    look_at(files, alloc, path)?;
    let store = match open_store(files, alloc, path, start) {
        Ok(store) => store,
        Err(fault) => return Err(fault),
    };
    match judge_log(files, alloc, path) {
        Ok(true) => Ok(store),
        Ok(false) | Err(_) => {
            let _files = leave(store.into_connection());
            Err(NoStore::OpenLog)
        }
    }
}

/// A new archive with a plan, in a database that has none of its tables.
///
/// Refused where the database refuses, or for lack of memory. The connection is then handed back, perhaps with the tables
/// of an archive of another plan.
pub fn lay_archive<S: Alter>(
    alloc: Global,
    conn: Connection<S>,
    plan: Plan,
) -> Result<Store<S>, (NoStore, Connection<S>)>
    requires { conn.in_transaction ≡ false }
    ensures stands { IfOk result (λ s. HasCleanDisk (state S.Store s.conn)
        → IsFree (state S.Store conn).now.schema
        → StandsFor S.Store s (record empty_archive { plan = plan })) }
    ensures clean { IfOk result (λ s. HasCleanDisk (state S.Store s.conn)
        → HasCleanDisk (state S.Store conn)) }
{
    let mut store = match Store::create(alloc, conn) {
        Ok(store) => store,
        Err((fault, conn)) => return Err((NoStore::from(fault), conn)),
    };
    match store.revise(plan) {
        Ok(()) => Ok(store),
        Err(fault) => Err((NoStore::from(fault), store.into_connection())),
    }
}

/// Lays a new archive with a plan in the database of a connection, and closes its files, which together keep it. Refused
/// also where a fault of the disk has shut the store.
fn lay_files<D: Disk + Drop>(
    alloc: Global,
    conn: Connection<FileStore<D>>,
    plan: Plan,
) -> Result<Files<D>, NoStore>
    requires { conn.in_transaction ≡ false }
    ensures clean { IfOk result (λ files. AreClean D.Disk files.log files.db
        → HasCleanDisk (file_state conn)) }
    ensures keeps { IfOk result (λ files. AreClean D.Disk files.log files.db
        → IsFree (file_state conn).now.schema
        → KeepsTogether D.Disk files (record empty_archive { plan = plan })) }
{
    let store = match lay_archive(alloc, conn, plan) {
        Ok(store) => store,
        Err((fault, conn)) => {
            let _files = leave(conn);
            return Err(fault);
        }
    };
    let (files, closing) = close_store(alloc, store);
    if closing.keeps_archive() {
        Ok(files)
    } else {
        Err(NoStore::Disk)
    }
}

/// Makes an archive with a plan in the empty file at a path. Beside the opening no call is made.
fn fill_file<F: FileSystem, S: Start>(
    files: &mut F,
    alloc: Global,
    path: &str,
    plan: Plan,
    start: S,
) -> Result<Files<FileFrom<S>>, NoStore>
    ensures keeps { IfOk result (KeepsNew (system_file S.Start) (image_at S.Start) plan) }
    ensures calls { Makes F.made files.old files.new
        (λ calls. calls ≡ open_store path.now true ∷ []) }
    ensures kept { (name : List ℕ) → F.has_named files.old name → F.has_named files.new name }
{
    let conn = match files.open_store(path, true, start) {
        Ok(conn) => conn,
        Err((error, _)) => {
            return Err(NoStore::of_opening(error, has_log(files, alloc, path)));
        }
    };
    match lay_files(alloc, conn, plan) {
        Ok(files) => Ok(files),
        Err(fault) => Err(fault),
    }
}

/// Makes a new store with a plan in a new file at a path, which only its owner may read and write (0600), and whose pages
/// end in sums. Answers its files. As they held nothing before, the two together then keep an archive of that plan without
/// records, while the disk returns what was written to it.
///
/// Where something refuses, the file that was made is removed with its log; so also where the disk fails before the files
/// are closed. A file that was not made here is never removed.
pub fn create_archive<F: FileSystem, S: Start>(
    files: &mut F,
    alloc: Global,
    path: &str,
    plan: Plan,
    start: S,
) -> Result<Files<FileFrom<S>>, NoStore>
    ensures keeps { IfOk result (KeepsNew (system_file S.Start) (image_at S.Start) plan) }
    ensures free { OnOk result (IsFreePlace F.lacks files.old path.now) }
    ensures makes { OnOk result (Makes F.made files.old files.new
        (λ calls. calls ≡ making path.now)) }
    ensures tries { OnErr result (Makes F.made files.old files.new
        (Begins (making path.now ++ removing path.now) (F.has_named files.new path.now))) }
{
    let log = log_beside(alloc, path)?;
    make_file(files, alloc, path)?;
    match fill_file(files, alloc, path, plan, start) {
        Ok(filled) => Ok(filled),
        Err(fault) => {
            remove_both(files, log.as_str(), path);
            Err(fault)
        }
    }
}
