//! The end of a connection over two files, a database and its log.

ghost use Rattle.std.specs.Prelude.{◌≡◌, false, IsTrue};
ghost use Rattle.sqlite.specs.State.{HasCleanDisk};
ghost use Rattle.sqlite.specs.WalReads.{AreClean};
ghost use Rattle.sqlite.specs.WalFiles.{outcomes};
ghost use Rattle.sqlite.specs.Recovery.{Image};
ghost use Rattle.sqlite.specs.Files.{file_state};
ghost use Rattle.record_files.specs.Closing.{HasCause, HaveCounted, HoldsBy, HoldsLeft, HoldsNow, IsLeftOpen, IsShut};

use crate::copying::copy_log;
use sqlite::{Connection, FileStore, Files};
use sqlite_disk::Disk;
use sqlite_trees::store::Store;
use std::alloc::Global;

/// Why the log was not copied, where the store was still open.
#[derive(Clone, Copy, Drop)]
pub enum Hindrance {
    /// There was no memory.
    NoMemory,
    /// The log has more frames, or the database file more pages, than 32 bits number.
    TooLong,
    /// The disk failed, or had no room.
    Fault,
}

/// Which of the two files holds the last commit.
#[derive(Clone, Copy, Drop)]
pub enum Closing {
    /// The database file alone: what the log had was copied into it.
    Copied,
    /// The two files together. The log could not be copied, or only in part, and the next opening finds what it has.
    Logged(Hindrance),
    /// A fault of the disk had shut the store before, so that it could neither read nor write. Nothing was copied: the
    /// two files keep what was committed before the fault, or what the call in which it fell was to commit.
    Shut,
}

impl Closing {
    /// Whether the files keep what the store had in the end: the database file alone, or the two files together. It is not
    /// so where a fault of the disk had shut the store.
    pub fn keeps_archive(self) -> bool
        ensures kept { IsTrue result → IsLeftOpen self }
        ensures lost { result ≡ false → IsLeftOpen self → ⊥ }
    {
        match self {
            Closing::Copied | Closing::Logged(_) => true,
            Closing::Shut => false,
        }
    }
}

/// Ends a connection: what the log has is copied into the database file, and the files are given back.
///
/// Where the copy fails, the two files together keep what the connection had (`Logged`), also over a crash. Of a store that
/// a fault had shut before, nothing is copied (`Shut`), and the files keep one of the databases that a crash at that moment
/// may leave.
pub fn close<D: Disk + Drop>(alloc: Global, conn: Connection<FileStore<D>>) -> (Files<D>, Closing)
    ensures clean { AreClean D.Disk result.0.log result.0.db → HasCleanDisk (file_state conn) }
    ensures holds { AreClean D.Disk result.0.log result.0.db → conn.in_transaction ≡ false
        → (image : Image) → outcomes D.Disk result.0.log result.0.db image
        → HoldsBy result.1 (HoldsNow (file_state conn)) image }
    ensures leaves { AreClean D.Disk result.0.log result.0.db → (image : Image)
        → outcomes D.Disk result.0.log result.0.db image → HoldsLeft (file_state conn) image }
    ensures cause { AreClean D.Disk result.0.log result.0.db → IsTrue (file_state conn).is_open
        → HasCause D.Disk (file_state conn).faults result.0 result.1 }
    ensures shut { AreClean D.Disk result.0.log result.0.db → (file_state conn).is_open ≡ false
        → IsShut D.Disk (file_state conn).faults result.0 result.1 }
    ensures counts { HaveCounted D.Disk (file_state conn).faults result.0 }
{
    let _settled = conn.is_autocommit();
    let _live = conn.schema();
    let store = conn.into_store();
    if store.is_broken() {
        return (store.close(), Closing::Shut);
    }
    copy_log(alloc, store.close())
}

/// Ends a connection with no read and no write, and gives the files back as they are.
pub fn leave<D: Disk + Drop>(conn: Connection<FileStore<D>>) -> Files<D>
    ensures clean { AreClean D.Disk result.log result.db → HasCleanDisk (file_state conn) }
    ensures holds { AreClean D.Disk result.log result.db → conn.in_transaction ≡ false
        → IsTrue (file_state conn).is_open → (image : Image)
        → outcomes D.Disk result.log result.db image → HoldsNow (file_state conn) image }
    ensures leaves { AreClean D.Disk result.log result.db → (image : Image)
        → outcomes D.Disk result.log result.db image → HoldsLeft (file_state conn) image }
{
    let _settled = conn.is_autocommit();
    let _live = conn.schema();
    conn.into_store().close()
}
