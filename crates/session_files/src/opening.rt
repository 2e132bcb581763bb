//! The desk over a database.

ghost use Rattle.std.specs.Prelude.{◌≡◌, false, true, IfErr, IfOk, IsTrue, OnOk};
ghost use Rattle.sqlite.specs.State.{HasCleanDisk};
ghost use Rattle.sqlite.specs.Held.{state};
ghost use Rattle.record_archive.specs.Archive.{Archive, IsArchive};
ghost use Rattle.record_adoption.specs.Adoption.{Finds, LeavesArchive};
ghost use Rattle.record_archive.specs.Faults.{is_trouble};
ghost use Rattle.desk_commands.specs.Standing.{opening};
ghost use Rattle.sqlite.specs.Tree.{Trees};
ghost use Rattle.record_store.specs.Layouts.{HasArchiveTablesOrNone};
ghost use Rattle.record_store.specs.Stores.{TreesKeep, keeper_of};
ghost use Rattle.filing_desk.specs.Standing.{StandsFor};

use filing_desk::Desk;
use record_store::{Store, StoreFault};
use sqlite::{Alter, Connection};
use std::alloc::Global;

/// The desk over a database: its archive, with no script and no capture in flight. A database with no table gets the
/// tables of an empty archive.
///
/// Refused with 88 where the tables or their rows are not an archive's, with 89 (`sqlite`) or with 99 (no memory). The
/// connection is then handed back; a crash may leave what it might have left before, or that archive in the tables of
/// version 2. Where it is not refused, no fault has shut the connection, so that whatever a crash leaves keeps that
/// archive.
pub(crate) fn open_desk<S: Alter + Drop>(
    alloc: Global,
    conn: Connection<S>,
) -> Result<Desk<Store<S>>, (StoreFault, Connection<S>)>
    requires { conn.in_transaction ≡ false }
    ensures clean { IfOk result (λ d. HasCleanDisk (state S.Store d.store.conn)
        → HasCleanDisk (state S.Store conn)) }
    ensures stands { IfOk result (λ d. HasCleanDisk (state S.Store d.store.conn) → (a : Archive)
        → Finds (state S.Store conn).now a → StandsFor (keeper_of S.Store) d (opening a)) }
    ensures leaves { IfOk result (λ d. HasCleanDisk (state S.Store d.store.conn) → (a : Archive)
        → Finds (state S.Store conn).now a → (trees : Trees)
        → (state S.Store d.store.conn).may_leave trees → TreesKeep trees a) }
    ensures open { IfOk result (λ d. HasCleanDisk (state S.Store d.store.conn)
        → IsTrue (state S.Store d.store.conn).is_open) }
    ensures layout { OnOk result (HasArchiveTablesOrNone (state S.Store conn).now.schema) }
    ensures still_clean { IfErr result
        (λ e. HasCleanDisk (state S.Store e.1) → HasCleanDisk (state S.Store conn)) }
    ensures left { IfErr result
        (λ e. LeavesArchive S.Store conn e.1 (Finds (state S.Store conn).now)) }
    ensures refused { IfErr result (λ e. HasCleanDisk (state S.Store e.1) → (a : Archive)
        → Finds (state S.Store conn).now a → IsArchive a → is_trouble e.0 ≡ true) }
{
    let mut store = match Store::adopt(alloc, conn) {
        Ok(store) => store,
        Err(refused) => return Err(refused),
    };
    if let Err(fault) = store.ensure_open() {
        return Err((fault, store.into_connection()));
    }
    let _idle = store.is_idle();
    match Desk::new(alloc, store) {
        Ok(desk) => Ok(desk),
        Err(store) => Err((StoreFault::NoMemory, store.into_connection())),
    }
}
