//! What a crash between two commands leaves of the files.

ghost use Rattle.std.specs.Prelude.{IsTrue};
ghost use Rattle.sqlite.specs.WalReads.{AreClean};
ghost use Rattle.sqlite.specs.WalFiles.{outcomes};
ghost use Rattle.sqlite.specs.Recovery.{Image};
ghost use Rattle.sqlite.specs.Files.{file_state, over_files};
ghost use Rattle.desk_commands.specs.Standing.{Standing};
ghost use Rattle.sqlite.specs.State.{HasCleanDisk};
ghost use Rattle.record_store.specs.Stores.{keeper_of};
ghost use Rattle.filing_desk.specs.Standing.{StandsFor};
ghost use Rattle.record_files.specs.Closing.{HoldsLeft};
ghost use Rattle.record_files.specs.Files.{KeepsAt};

use filing_desk::Desk;
use record_files::leave;
use record_store::Store;
use sqlite::{FileStore, Files};
use sqlite_disk::Disk;

/// Gives the files under a desk back as they are, with no read and no write, as a crash does. Between two commands, and
/// before the first and after the last, whatever it leaves of the files recovers to the archive as it is then, while no
/// fault has shut the store. Afterwards it recovers to a database that a crash of the desk at this moment may leave: by
/// the contract of each call, that of an archive after the first of the commands.
pub fn crash<D: Disk + Drop>(desk: Desk<Store<FileStore<D>>>) -> Files<D>
    ensures clean { AreClean D.Disk result.log result.db
        → HasCleanDisk (file_state desk.store.conn) }
    ensures keeps { AreClean D.Disk result.log result.db
        → IsTrue (file_state desk.store.conn).is_open
        → (s : Standing) → StandsFor (keeper_of over_files) desk s → (image : Image)
        → outcomes D.Disk result.log result.db image → KeepsAt s.office.archive image }
    ensures leaves { AreClean D.Disk result.log result.db → (image : Image)
        → outcomes D.Disk result.log result.db image
        → HoldsLeft (file_state desk.store.conn) image }
{
    leave(desk.into_store().into_connection())
}
