//! A session at the desk over a database, wherever that is kept.

ghost use Rattle.std.specs.Prelude.{◌≡◌, false, true, IfErr, IfOk, OnOk};
ghost use Rattle.sqlite.specs.State.{HasCleanDisk};
ghost use Rattle.sqlite.specs.Held.{state};
ghost use Rattle.record_archive.specs.Archive.{Archive, IsArchive};
ghost use Rattle.record_adoption.specs.Adoption.{Finds, LeavesArchive};
ghost use Rattle.record_archive.specs.Faults.{is_trouble};
ghost use Rattle.session_protocol.specs.Session.{session_in};
ghost use Rattle.record_store.specs.Layouts.{HasArchiveTablesOrNone};
ghost use Rattle.session_files.specs.Sessions.{EndsAt, EndsBySome, IsDone, IsTold};

use crate::opening::open_desk;
use filing_desk::Desk;
use record_store::{Store, StoreFault};
use session_protocol::{ServeFault, Sink, Source, serve, sessions_refine_states};
use sqlite::{Alter, Connection};
use std::alloc::Global;

/// Serves a session at the desk over the database of a connection. Answers how the session itself ended, and hands the
/// connection back.
///
/// Refused with 88 where the database is not an archive's, with 89 (`sqlite`) or with 99 (no memory), before anything is
/// read. The connection is then handed back as `open_desk` leaves it.
///
/// It is what `serve_connection`, over files, and `serve_in_memory` have in common.
pub(crate) fn serve_over<S: Alter + Drop, In: Source, Out: Sink>(
    alloc: Global,
    conn: Connection<S>,
    source: &mut In,
    sink: &mut Out,
) -> Result<(Result<(), ServeFault>, Connection<S>), (StoreFault, Connection<S>)>
    requires { conn.in_transaction ≡ false }
    ensures served { IfOk result (λ it. HasCleanDisk (state S.Store it.1) → In.tells → Out.tells
        → HasCleanDisk (state S.Store conn) × ((a : Archive) → Finds (state S.Store conn).now a
        → EndsAt S.Store it.1 a (IsTold it.0 (session_in (In.left source.old))
        (Out.written sink.old) (Out.written sink.new)))) }
    ensures done { IfOk result (λ it. HasCleanDisk (state S.Store it.1)
        → HasCleanDisk (state S.Store conn) × ((a : Archive) → Finds (state S.Store conn).now a
        → EndsAt S.Store it.1 a (IsDone In.tells Out.tells it.0 (In.left source.old)
        (Out.written sink.old) (Out.written sink.new)))) }
    ensures left { IfOk result (λ it. HasCleanDisk (state S.Store it.1)
        → HasCleanDisk (state S.Store conn) × ((a : Archive) → Finds (state S.Store conn).now a
        → EndsBySome S.Store it.1 a In.tells Out.tells it.0 (In.left source.old)
        (Out.written sink.old) (Out.written sink.new))) }
    ensures layout { OnOk result (HasArchiveTablesOrNone (state S.Store conn).now.schema) }
    ensures still_clean { IfErr result
        (λ e. HasCleanDisk (state S.Store e.1) → HasCleanDisk (state S.Store conn)) }
    ensures kept { IfErr result
        (λ e. LeavesArchive S.Store conn e.1 (Finds (state S.Store conn).now)) }
    ensures refused { IfErr result (λ e. HasCleanDisk (state S.Store e.1) → (a : Archive)
        → Finds (state S.Store conn).now a → IsArchive a → is_trouble e.0 ≡ true) }
    ensures untouched { IfErr result
        (λ e. (source.new ≡ source.old) × (sink.new ≡ sink.old)) }
{
    sessions_refine_states::<Desk<Store<S>>>();
    let mut desk = match open_desk(alloc, conn) {
        Ok(desk) => desk,
        Err(refused) => return Err(refused),
    };
    let session = serve(alloc, source, sink, &mut desk);
    Ok((session, desk.into_store().into_connection()))
}
