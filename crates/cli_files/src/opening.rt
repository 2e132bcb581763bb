//! A store over files.

ghost use Rattle.std.specs.Prelude.{◌≡◌, ◌↔◌, ◌∷◌, [], false, true, IfOk, IfErr, IsTrue, OnOk};
ghost use Rattle.sqlite.specs.State.{HasCleanDisk};
ghost use Rattle.sqlite.specs.Held.{state};
ghost use Rattle.sqlite.specs.WalReads.{AreClean};
ghost use Rattle.sqlite.specs.WalFiles.{image_at, outcomes};
ghost use Rattle.sqlite.specs.Recovery.{Image};
ghost use Rattle.sqlite.specs.Files.{file_state, over_files};
ghost use Rattle.record_tables.specs.Tables.{IsApart};
ghost use Rattle.record_places.specs.Calls.{Makes, open_store};
ghost use Rattle.record_archive.specs.Archive.{Archive};
ghost use Rattle.record_adoption.specs.Adoption.{Finds};
ghost use Rattle.record_store.specs.Layouts.{HasArchiveTables};
ghost use Rattle.record_store.specs.Stores.{StandsFor};
ghost use Rattle.record_files.specs.Closing.{HasCause, HoldsLeft};
ghost use Rattle.record_files.specs.Files.{FindsAt, HoldsTables, KeepsFiles};

use crate::fault::NoStore;
use record_files::{Closing, close, leave};
use record_places::{FileSystem, has_log};
use record_store::Store;
use record_tables::layout::{Layout, layout_of};
use sqlite::{Alter, Connection, FileFrom, FileStore, Files, Start};
use sqlite_disk::Disk;
use sqlite_schema::schema::Schema;
use std::alloc::Global;

/// Whether no table of a database has a foreign key, whatever its name.
fn is_apart(schema: &Schema) -> bool
    ensures { IsTrue result ↔ IsApart schema.now }
{
    schema
        .tables
        .as_slice()
        .iter()
        .all(|table| table.references.is_empty())
}

/// The store over a database that has an archive's tables. It represents the archive that is found there.
///
/// Refused where the database has none of these tables, where they or their rows are not an archive's, where a table of any
/// name has a foreign key, where the database refuses, or for lack of memory. The connection is then handed back.
pub fn adopt_found<S: Alter>(
    alloc: Global,
    conn: Connection<S>,
) -> Result<Store<S>, (NoStore, Connection<S>)>
    requires { conn.in_transaction ≡ false }
    ensures stands { IfOk result (λ s. HasCleanDisk (state S.Store s.conn) → (a : Archive)
        → Finds (state S.Store conn).now a → StandsFor S.Store s a) }
    ensures layout { OnOk result (HasArchiveTables (state S.Store conn).now.schema) }
    ensures apart { OnOk result (IsApart (state S.Store conn).now.schema) }
    ensures clean { IfOk result (λ s. HasCleanDisk (state S.Store s.conn)
        → HasCleanDisk (state S.Store conn)) }
{
    match layout_of(conn.schema()) {
        Layout::Empty => return Err((NoStore::NoTables, conn)),
        Layout::Other => return Err((NoStore::OtherTables, conn)),
        Layout::First | Layout::FirstWithDues | Layout::Second => {}
    }
    if !is_apart(conn.schema()) {
        return Err((NoStore::ForeignKey, conn));
    }
    match Store::adopt(alloc, conn) {
        Ok(adopted) => Ok(adopted),
        Err((fault, conn)) => Err((NoStore::from(fault), conn)),
    }
}

/// The store in the file at a path. While the disk returns what was written to it, the store represents the archive that
/// the files held, and what they held are an archive's tables, and no table with a foreign key. What they held is what `S`
/// says; no code knows it, so this holds whatever it is. Beside the opening no call is made.
pub fn open_store<F: FileSystem, S: Start>(
    files: &mut F,
    alloc: Global,
    path: &str,
    start: S,
) -> Result<Store<FileStore<FileFrom<S>>>, NoStore>
    ensures stands { IfOk result (λ s. HasCleanDisk (file_state s.conn) → (a : Archive)
        → FindsAt (image_at S.Start) a → StandsFor over_files s a) }
    ensures layout { IfOk result (λ s. HasCleanDisk (file_state s.conn)
        → HoldsTables HasArchiveTables (image_at S.Start)) }
    ensures apart { IfOk result (λ s. HasCleanDisk (file_state s.conn)
        → HoldsTables IsApart (image_at S.Start)) }
    ensures calls { Makes F.made files.old files.new
        (λ calls. calls ≡ open_store path.now true ∷ []) }
{
    let conn = match files.open_store(path, true, start) {
        Ok(conn) => conn,
        Err((error, _)) => {
            return Err(NoStore::of_opening(error, has_log(files, alloc, path)));
        }
    };
    match adopt_found(alloc, conn) {
        Ok(store) => Ok(store),
        Err((fault, conn)) => {
            let _files = leave(conn);
            Err(fault)
        }
    }
}

/// Ends a store, and gives its files back. They keep the archive that the store represents: the database file alone where
/// its log could be copied, and otherwise the two files together. A fault that shut the store before is reported (`Shut`);
/// the files then hold one of the databases that a crash at that moment may leave. It is reported of an open store only where
/// the disk fails.
pub fn close_store<D: Disk + Drop>(alloc: Global, store: Store<FileStore<D>>) -> (Files<D>, Closing)
    ensures clean { AreClean D.Disk result.0.log result.0.db
        → HasCleanDisk (file_state store.conn) }
    ensures keeps { AreClean D.Disk result.0.log result.0.db → (a : Archive)
        → StandsFor over_files store a → KeepsFiles D.Disk result.1 result.0 a }
    ensures leaves { AreClean D.Disk result.0.log result.0.db → (image : Image)
        → outcomes D.Disk result.0.log result.0.db image
        → HoldsLeft (file_state store.conn) image }
    ensures cause { AreClean D.Disk result.0.log result.0.db
        → IsTrue (file_state store.conn).is_open
        → HasCause D.Disk (file_state store.conn).faults result.0 result.1 }
{
    close(alloc, store.into_connection())
}
