//! A store over a database that may have an archive's tables.

ghost use Rattle.std.specs.Prelude.{◌≡◌, false, IfOk, IfErr, OnOk};
ghost use Rattle.sqlite.specs.State.{HasCleanDisk};
ghost use Rattle.sqlite.specs.Held.{state};
ghost use Rattle.record_tables.specs.Tables.{IsFree};
ghost use Rattle.record_tables.specs.Steps.{IsUntouched};
ghost use Rattle.record_archive.specs.declared.fault.ArchiveFault.TheVariants.{Refused};
ghost use Rattle.record_archive.specs.declared.fault.ArchiveRefusal.TheVariants.{NoArchive};
ghost use Rattle.record_archive.specs.Archive.{Archive, IsArchive, empty_archive};
ghost use Rattle.record_archive.specs.Faults.{is_trouble};
ghost use Rattle.record_adoption.specs.Keeping.{StoresArchive};
ghost use Rattle.record_store.specs.Faults.{is_own};
ghost use Rattle.record_store.specs.Layouts.{HasArchiveTablesOrNone};
ghost use Rattle.record_store.specs.Stores.{StandsFor, TakesOver};
ghost use Rattle.record_adoption.specs.Adoption.{Finds, FindsRows, HasNoArchive, HasArchive, HasRows, IsKeyed, LeavesArchive, FindsNone, LeavesFound, HasTypedRows};

use crate::fault::{StoreFault, fault_of_read};
use crate::store::Store;
use record_adoption::{First, Overview, Second, Version, settle_version};
use record_archive::ArchiveRefusal;
use record_tables::layout::{Layout, layout_of};
use sqlite::{Alter, Connection};
use std::alloc::Global;

fn store_over<S: Alter>(alloc: Global, conn: Connection<S>, overview: Overview) -> Store<S>
    ensures conn { result.conn ≡ conn }
    ensures plan { result.plan ≡ overview.plan }
    ensures next { result.next ≡ overview.next }
    ensures held { result.held ≡ overview.held }
    ensures others { result.others ≡ overview.others }
{
    let Overview {
        plan,
        next,
        held,
        others,
        ..
    } = overview;
    Store {
        alloc,
        conn,
        plan,
        next,
        held,
        others,
    }
}

/// The store over a database with a version of the tables.
fn adopt_version<V: Version, S: Alter>(
    alloc: Global,
    mut conn: Connection<S>,
) -> Result<Store<S>, (StoreFault, Connection<S>)>
    requires { conn.in_transaction ≡ false }
    ensures sound { IfOk result
        (λ s. HasCleanDisk (state S.Store s.conn) → V.is_sound (state S.Store conn).now) }
    ensures typed { IfOk result (λ s. HasCleanDisk (state S.Store s.conn)
        → V.are_there (state S.Store conn).now.schema → V.are_typed (state S.Store conn).now) }
    ensures found { IfOk result (λ s. TakesOver S.Store conn s V.finds IsKeyed) }
    ensures no_archive { IfErr result (λ e. e.0 ≡ Refused NoArchive →
        HasCleanDisk (state S.Store e.1) → FindsNone V.finds (state S.Store conn).now) }
    ensures trouble { IfErr result (λ e. is_trouble e.0 ≡ false → e.0 ≡ Refused NoArchive) }
    ensures cause { IfErr result (λ e. is_own e.0 ≡ false) }
    ensures unchanged { IfErr result (λ e. IsUntouched S.Store conn e.1) }
    ensures crash { IfOk result (λ s. LeavesFound S.Store conn s.conn V.finds IsKeyed) }
    ensures crash_refused { IfErr result (λ e. LeavesFound S.Store conn e.1 V.finds IsKeyed) }
{
    let _settled = conn.is_autocommit();
    match settle_version::<V, S>(alloc, &mut conn) {
        Ok(overview) => Ok(store_over(alloc, conn, overview)),
        Err(fault) => {
            let _still = conn.is_autocommit();
            Err((fault_of_read(fault), conn))
        }
    }
}

impl<S: Alter> Store<S> {
    /// The store over a database. In an empty one the tables are created, as by `create`. Version 2 is taken over,
    /// and its due days are replaced where they are wrong. Version 1, with or without due days, is moved over to
    /// version 2 in one transaction. Tables of other names are ignored.
    ///
    /// Refused with 88 where the tables or their rows are not an archive's, with 89 (`sqlite`) or with 99 (no
    /// memory). A refusal returns the connection and leaves the database as it was, whatever tables it has.
    ///
    /// Time and memory grow with the rows of the tables; of messages only the numbers are read.
    pub fn adopt(
        alloc: Global,
        conn: Connection<S>,
    ) -> Result<Store<S>, (StoreFault, Connection<S>)>
        requires { conn.in_transaction ≡ false }
        ensures empty { IfOk result (λ s. HasCleanDisk (state S.Store s.conn) →
            IsFree (state S.Store conn).now.schema → StandsFor S.Store s empty_archive) }
        ensures found { IfOk result (λ s. TakesOver S.Store conn s FindsRows IsKeyed) }
        ensures reopened { IfOk result (λ s. TakesOver S.Store conn s StoresArchive IsArchive) }
        ensures sound { IfOk result (λ s. HasCleanDisk (state S.Store s.conn)
            → HasRows (state S.Store conn).now → HasArchive (state S.Store conn).now) }
        ensures typed { IfOk result (λ s. HasCleanDisk (state S.Store s.conn)
            → HasTypedRows (state S.Store conn).now) }
        ensures layout { OnOk result (HasArchiveTablesOrNone (state S.Store conn).now.schema) }
        ensures no_archive { IfErr result (λ e. e.0 ≡ Refused NoArchive
            → HasCleanDisk (state S.Store e.1) → HasNoArchive (state S.Store conn).now) }
        ensures trouble { IfErr result (λ e. is_trouble e.0 ≡ false → e.0 ≡ Refused NoArchive) }
        ensures cause { IfErr result (λ e. is_own e.0 ≡ false) }
        ensures unchanged { IfErr result (λ e. IsUntouched S.Store conn e.1) }
        ensures crash { IfOk result
            (λ s. LeavesArchive S.Store conn s.conn (Finds (state S.Store conn).now)) }
        ensures crash_refused { IfErr result
            (λ e. LeavesArchive S.Store conn e.1 (Finds (state S.Store conn).now)) }
    {
        match layout_of(conn.schema()) {
            Layout::Empty => Store::create(alloc, conn),
            Layout::Second => adopt_version::<Second, S>(alloc, conn),
            Layout::First | Layout::FirstWithDues => adopt_version::<First, S>(alloc, conn),
            Layout::Other => Err((StoreFault::Refused(ArchiveRefusal::NoArchive), conn)),
        }
    }
}
