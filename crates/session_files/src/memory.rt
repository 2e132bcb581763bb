//! Sessions over a store in memory, where no disk can fail.

ghost use Rattle.std.specs.Prelude.{IfSome};
ghost use Rattle.sqlite.specs.Steps.{over_memory};
ghost use Rattle.record_archive.specs.Archive.{empty_archive};
ghost use Rattle.desk_commands.specs.Standing.{Standing, opening};
ghost use Rattle.session_protocol.specs.Session.{session_in};
ghost use Rattle.sqlite.specs.State.{HasCleanDisk};
ghost use Rattle.sqlite.specs.Held.{state};
ghost use Rattle.record_store.specs.declared.store.Store.{Store as Keeping};
ghost use Rattle.filing_desk.specs.declared.desk.Desk.{Desk as OverStore};
ghost use Rattle.sqlite_trees.specs.declared.memory.MemStore.{MemStore as InMemory};
ghost use Rattle.session_files.specs.Sessions.{IsDone, IsTold};

use crate::serving::serve_over;
use session_protocol::{ServeFault, Sink, Source};
use sqlite::Connection;
use std::alloc::Global;

/// A desk over a store in memory is always clean, since no disk is under it. So what is said of clean desks holds of
/// each, with no premise.
pub fn memory_is_clean()
    ensures { (desk : OverStore (Keeping InMemory))
        → HasCleanDisk (state over_memory desk.store.conn) }
{}

/// Serves a session over a new store in memory. None where there is no memory for it, or where the database refused.
pub fn serve_in_memory<In: Source, Out: Sink>(
    alloc: Global,
    source: &mut In,
    sink: &mut Out,
) -> Option<Result<(), ServeFault>>
    ensures served { In.tells → Out.tells → IfSome result (λ ended. (to : Standing)
        × IsTold ended (session_in (In.left source.old)) (Out.written sink.old)
        (Out.written sink.new) (opening empty_archive) to) }
    ensures done { IfSome result (λ ended. (to : Standing) × IsDone In.tells Out.tells ended
        (In.left source.old) (Out.written sink.old) (Out.written sink.new)
        (opening empty_archive) to) }
{
    let conn = match Connection::open_in_memory(alloc) {
        Ok(conn) => conn,
        Err(_) => return None,
    };
    match serve_over(alloc, conn, source, sink) {
        Ok((session, _)) => Some(session),
        Err(_) => None,
    }
}
