//! A session over the store in two files.

ghost use Rattle.std.specs.Prelude.{◌≡◌, ◌⊎◌, false, true, IfErr, IfOk, IsTrue, OnOk};
ghost use Rattle.sqlite.specs.State.{HasCleanDisk};
ghost use Rattle.sqlite.specs.WalReads.{AreClean};
ghost use Rattle.sqlite.specs.WalFiles.{image_at, outcomes};
ghost use Rattle.sqlite.specs.Recovery.{Image};
ghost use Rattle.sqlite.specs.Files.{file_state, over_files};
ghost use Rattle.record_archive.specs.Archive.{Archive, IsArchive};
ghost use Rattle.record_adoption.specs.Adoption.{Finds};
ghost use Rattle.record_archive.specs.Faults.{is_trouble};
ghost use Rattle.desk_commands.specs.Standing.{Standing};
ghost use Rattle.session_protocol.specs.Session.{session_in};
ghost use Rattle.record_store.specs.Layouts.{HasArchiveTablesOrNone};
ghost use Rattle.record_files.specs.Closing.{HasCause, HoldsLeft};
ghost use Rattle.record_files.specs.Files.{FindsAt, HoldsTables, KeepsAt, KeepsFiles, system_file};
ghost use Rattle.record_places.specs.Calls.{Makes, MayMake, OpensStore};
ghost use Rattle.session_files.specs.Refusals.{RefusalHasCause};
ghost use Rattle.session_files.specs.Sessions.{IsDone, IsTold, LeadsTo, LeavesSome};
ghost use Rattle.session_files.specs.Unserved.{HoldsStill, KeepsUnserved};

use crate::serving::serve_over;
use record_files::{Closing, close, leave};
use record_places::{FileSystem, NoPlace, make_ready};
use record_store::StoreFault;
use session_protocol::{ServeFault, Sink, Source};
use sqlite::{Connection, Error, FileFrom, FileStore, Files, Leftover, Start};
use sqlite_disk::Disk;
use std::alloc::Global;

/// A session over files that has ended.
#[derive(Drop)]
pub struct EndedSession<D: Disk> {
    /// How the session itself ended.
    pub session: Result<(), ServeFault>,
    /// Which of the files holds the archive.
    pub closing: Closing,
    /// The files.
    pub files: Files<D>,
}

/// Why no session was served.
#[derive(Drop)]
pub enum NoSession<D: Disk> {
    /// The files were not opened. With the error comes what is left of them, where the system had opened them.
    Unopened(Error, Option<Leftover<D>>),
    /// Their database was not taken for an archive: 88 where it is none, 89 (`sqlite`) or 99 (no memory).
    Unadopted(StoreFault, Files<D>),
    /// No store may be opened or made at the path, or its log lets others read or write than the file does.
    Unplaced(NoPlace),
}

/// Serves a session at the desk over a connection to files, and closes them.
///
/// Refused with 88 where the database is not an archive's, with 89 (`sqlite`) or with 99 (no memory), before anything is
/// read. The files are then given back as they are: whatever a crash leaves of them recovers to a database that it might
/// have left before the call, or to one that stores the archive that was found (`kept`).
///
/// `serve_file` opens the connection first. This function stands apart because it holds over any disk.
pub fn serve_connection<D: Disk + Drop, In: Source, Out: Sink>(
    alloc: Global,
    conn: Connection<FileStore<D>>,
    source: &mut In,
    sink: &mut Out,
) -> Result<EndedSession<D>, (StoreFault, Files<D>)>
    requires { conn.in_transaction ≡ false }
    ensures served { IfOk result (λ it. AreClean D.Disk it.files.log it.files.db
        → In.tells → Out.tells → HasCleanDisk (file_state conn) × ((a : Archive)
        → Finds (file_state conn).now a → LeadsTo D.Disk it a (IsTold it.session
        (session_in (In.left source.old)) (Out.written sink.old) (Out.written sink.new)))) }
    ensures done { IfOk result (λ it. AreClean D.Disk it.files.log it.files.db
        → HasCleanDisk (file_state conn) × ((a : Archive)
        → Finds (file_state conn).now a → LeadsTo D.Disk it a (IsDone In.tells Out.tells it.session
        (In.left source.old) (Out.written sink.old) (Out.written sink.new)))) }
    ensures left { IfOk result (λ it. AreClean D.Disk it.files.log it.files.db
        → HasCleanDisk (file_state conn) × ((a : Archive)
        → Finds (file_state conn).now a → LeavesSome D.Disk it a In.tells Out.tells
        (In.left source.old) (Out.written sink.old) (Out.written sink.new))) }
    ensures shut { IfOk result (λ it. AreClean D.Disk it.files.log it.files.db
        → HasCleanDisk (file_state conn) × ((a : Archive)
        → Finds (file_state conn).now a → HasCause D.Disk 0 it.files it.closing)) }
    ensures layout { OnOk result (HasArchiveTablesOrNone (file_state conn).now.schema) }
    ensures refused { IfErr result (λ e. AreClean D.Disk e.1.log e.1.db
        → HasCleanDisk (file_state conn) × ((a : Archive)
        → Finds (file_state conn).now a → IsArchive a → is_trouble e.0 ≡ true)) }
    ensures kept { IfErr result (λ e. AreClean D.Disk e.1.log e.1.db → (a : Archive)
        → Finds (file_state conn).now a → (image : Image)
        → outcomes D.Disk e.1.log e.1.db image → HoldsStill (file_state conn) a image) }
    ensures untouched { IfErr result
        (λ e. (source.new ≡ source.old) × (sink.new ≡ sink.old)) }
{
    match serve_over(alloc, conn, source, sink) {
        Ok((session, conn)) => {
            let (files, closing) = close(alloc, conn);
            Ok(EndedSession {
                session,
                closing,
                files,
            })
        }
        Err((fault, conn)) => Err((fault, leave(conn))),
    }
}

/// Serves a session over the store in the file at a path, and closes the file. Where the file is new, its pages end in
/// checksums.
///
/// While the disk returns what was written to it, the session begins at the archive that the files held, what is
/// written are the answers of its commands there, and the files keep the archive that it leads to, also over a crash,
/// unless the end is `Shut`. Whatever faults of the disk shut the store, and wherever a crash falls, the files keep the
/// archive after the first of the commands, among them all that the archive has carried out (`left`). `Shut`, and a fault
/// that hindered the copy of the log, are reported only where the disk has failed (`shut`). A session is served only where
/// the files hold an archive's tables, or none of their names (`layout`). Of octets it says what the streams know of
/// theirs. What the files held, and how a write that a crash cuts short is read, is what `S` says. No code knows it, so
/// this holds whatever it is.
///
/// No session is served, and nothing is read, where the files cannot be opened, where they hold no archive (88), and
/// where the database refuses (89) or there is no memory (99). Over files that hold an archive there is no other cause.
///
/// Where nothing is at the path, and no log or journal beside it, an empty file is made there that only its owner may read
/// and write. The store at this path is then opened, and no other call of the file system makes, removes, renames or opens
/// anything (`opens`, `tries`). Where no session is served, nothing is read and nothing is written (`untouched`).
///
/// The streams and `S` are parameters, so that this holds of each file and stream of which something is known; `serve_path`
/// serves the program's own, of which nothing is.
pub fn serve_file<F: FileSystem, S: Start, In: Source, Out: Sink>(
    system: &mut F,
    alloc: Global,
    path: &str,
    start: S,
    source: &mut In,
    sink: &mut Out,
) -> Result<EndedSession<FileFrom<S>>, NoSession<FileFrom<S>>>
    ensures served { IfOk result (λ it. AreClean (system_file S.Start) it.files.log it.files.db
        → In.tells → Out.tells → (a : Archive) → FindsAt (image_at S.Start) a
        → LeadsTo (system_file S.Start) it a (IsTold it.session (session_in (In.left source.old))
        (Out.written sink.old) (Out.written sink.new))) }
    ensures done { IfOk result (λ it. AreClean (system_file S.Start) it.files.log it.files.db
        → (a : Archive) → FindsAt (image_at S.Start) a
        → LeadsTo (system_file S.Start) it a (IsDone In.tells Out.tells it.session
        (In.left source.old) (Out.written sink.old) (Out.written sink.new))) }
    ensures left { IfOk result (λ it. AreClean (system_file S.Start) it.files.log it.files.db
        → (a : Archive) → FindsAt (image_at S.Start) a
        → LeavesSome (system_file S.Start) it a In.tells Out.tells
        (In.left source.old) (Out.written sink.old) (Out.written sink.new)) }
    ensures shut { IfOk result (λ it. AreClean (system_file S.Start) it.files.log it.files.db
        → (a : Archive) → FindsAt (image_at S.Start) a
        → HasCause (system_file S.Start) 0 it.files it.closing) }
    ensures layout { IfOk result (λ it. AreClean (system_file S.Start) it.files.log it.files.db
        → HoldsTables HasArchiveTablesOrNone (image_at S.Start)) }
    ensures refused { IfErr result (λ e. (a : Archive) → FindsAt (image_at S.Start) a → IsArchive a
        → RefusalHasCause e) }
    ensures kept { IfErr result (λ e. (a : Archive) → FindsAt (image_at S.Start) a
        → KeepsUnserved (image_at S.Start) a e) }
    ensures untouched { IfErr result
        (λ e. (source.new ≡ source.old) × (sink.new ≡ sink.old)) }
    ensures opens { IfOk result (λ it. Makes F.made system.old system.new (OpensStore path.now)) }
    ensures tries { IfErr result (λ e. Makes F.made system.old system.new
        (λ calls. MayMake path.now calls ⊎ OpensStore path.now calls)) }
{
    if let Err(fault) = make_ready(system, alloc, path) {
        return Err(NoSession::Unplaced(fault));
    }
    let conn = match system.open_store(path, true, start) {
        Ok(conn) => conn,
        Err((error, left)) => return Err(NoSession::Unopened(error, left)),
    };
    match serve_connection(alloc, conn, source, sink) {
        Ok(ended) => Ok(ended),
        Err((fault, files)) => Err(NoSession::Unadopted(fault, files)),
    }
}

/// What a session left in the files, with or without a crash, is what the next one finds: files that keep an archive are
/// files in which the next session finds that archive.
pub fn sessions_follow()
    ensures { (image : Image) (a : Archive) → KeepsAt a image → FindsAt image a }
{}
