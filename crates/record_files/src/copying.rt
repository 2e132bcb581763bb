//! The copy of a log into its database file, once their store is given up.
//!
//! A store that a fault shuts while it copies its log shows nothing more, so nothing could be said of its files. Here the
//! log alone is opened again and copied, and what a crash leaves of the two files is known after every fault.

ghost use Rattle.std.specs.Prelude.{◌≡◌, ◌≢◌, ◌≤◌, ℕ, OnOk, IsTrue};
ghost use Rattle.sqlite_wal.specs.Files.{IsHuge, RefusesToRecover};
ghost use Rattle.sqlite_wal.specs.Log.{AreUsable, image, state};
ghost use Rattle.sqlite_wal.specs.Outcome.{FailsFor};
ghost use Rattle.sqlite_wal.specs.Reads.{AreClean};
ghost use Rattle.sqlite_wal.specs.Recovery.{AddsNothing, Image, RecoversAs};
ghost use Rattle.sqlite.specs.Files.{faults_of, image_of};
ghost use Rattle.record_files.specs.Copying.{AreReadable, HasHindrance, IsMoved, LeavesSame, StandsAlone, hindrance, without_log};

use crate::closing::{Closing, Hindrance};
use sqlite_disk::{Disk, Files};
use sqlite_wal::{Error, Log, probe_page_size};
use std::alloc::{AllocFailed, Global};

/// The octets of a log's header and of the header of a frame (SQLite's file format, section 4.1).
const LEAST_LOG: usize = 32 + 24;

/// What hindered a copy of the log, by its error.
fn hindrance_of(error: Error) -> Hindrance
    ensures { result ≡ hindrance error }
{
    match error {
        Error::OutOfMemory => Hindrance::NoMemory,
        Error::Full => Hindrance::TooLong,
        Error::Io(_) | Error::Closed | Error::NoSuchPage | Error::Corrupt | Error::Exists => {
            Hindrance::Fault
        }
    }
}

/// Opens a log, copies its frames into the database file, and cuts it to its header.
fn move_frames<D: Disk>(log: &mut Log<D>) -> Result<(), Error>
    requires { AreUsable log.old }
    ensures clean { IsTrue (state log.new).is_clean → IsTrue (state log.old).is_clean }
    ensures same { AddsNothing (state log.old).page_size (state log.old).may_leave
        (state log.new).may_leave }
    ensures alone { OnOk result (IsTrue (state log.new).is_clean → (left : Image)
        → (state log.new).may_leave left
        → RecoversAs (state log.old).page_size (image log.old) (without_log left)) }
    ensures cause { FailsFor result (IsTrue (state log.new).is_clean) (state log.old).faults
        (state log.new).faults (RefusesToRecover (state log.old).page_size (image log.old)) }
    ensures long { IsTrue (state log.new).is_clean → result ≡ Err Error.Full
        → IsHuge (state log.old).page_size (image log.new) }
{
    log.recover()?;
    log.finish()
}

/// Copies the frames of a log into its database file.
fn copy_frames<D: Disk + Drop>(alloc: Global, mut files: Files<D>) -> (Files<D>, Closing)
    requires log { IsTrue (D.Disk.is_usable files.log) }
    requires db { IsTrue (D.Disk.is_usable files.db) }
    ensures clean { AreClean D.Disk result.0.log result.0.db → AreClean D.Disk files.log files.db }
    ensures same { AreClean D.Disk result.0.log result.0.db → (size : ℕ)
        → AreReadable (image_of D.Disk files) size → LeavesSame D.Disk size files result.0 }
    ensures alone { AreClean D.Disk result.0.log result.0.db → (size : ℕ)
        → AreReadable (image_of D.Disk files) size → result.1 ≡ Closing.Copied
        → StandsAlone D.Disk size files result.0 }
    ensures counts { faults_of D.Disk files ≤ faults_of D.Disk result.0 }
    ensures cause { AreClean D.Disk result.0.log result.0.db → (size : ℕ)
        → AreReadable (image_of D.Disk files) size
        → HasHindrance D.Disk files result.0 result.1 }
    ensures told { result.1 ≢ Closing.Shut }
{
    let size = match probe_page_size(&mut files) {
        Ok(Some(size)) => size,
        Ok(None) | Err(_) => return (files, Closing::Logged(Hindrance::Fault)),
    };
    // A number by chance, which came with the log. The digests that it is the key of are not taken any more.
    let seed = files.log.key();
    let mut log = match Log::new(alloc, files, size, seed) {
        Ok(log) => log,
        Err(AllocFailed { value }) => return (value, Closing::Logged(Hindrance::NoMemory)),
    };
    let closing = match move_frames(&mut log) {
        Ok(()) => Closing::Copied,
        Err(error) => Closing::Logged(hindrance_of(error)),
    };
    (log.into_files(), closing)
}

/// Copies what a log has into its database file. Whatever fails, the two files together keep what they had, also over a
/// crash. A log with no frame is left as it is.
pub(crate) fn copy_log<D: Disk + Drop>(alloc: Global, mut files: Files<D>) -> (Files<D>, Closing)
    requires log { IsTrue (D.Disk.is_usable files.log) }
    requires db { IsTrue (D.Disk.is_usable files.db) }
    ensures clean { AreClean D.Disk result.0.log result.0.db → AreClean D.Disk files.log files.db }
    ensures same { AreClean D.Disk result.0.log result.0.db → (size : ℕ)
        → AreReadable (image_of D.Disk files) size → LeavesSame D.Disk size files result.0 }
    ensures alone { AreClean D.Disk result.0.log result.0.db → (size : ℕ)
        → AreReadable (image_of D.Disk files) size → result.1 ≡ Closing.Copied
        → IsMoved D.Disk size files result.0 }
    ensures counts { faults_of D.Disk files ≤ faults_of D.Disk result.0 }
    ensures cause { AreClean D.Disk result.0.log result.0.db → (size : ℕ)
        → AreReadable (image_of D.Disk files) size
        → HasHindrance D.Disk files result.0 result.1 }
    ensures told { result.1 ≢ Closing.Shut }
{
    match files.log.len() {
        Ok(len) if len < LEAST_LOG => (files, Closing::Copied),
        Ok(_) => copy_frames(alloc, files),
        Err(_) => (files, Closing::Logged(Hindrance::Fault)),
    }
}
