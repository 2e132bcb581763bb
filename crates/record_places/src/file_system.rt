//! The calls that are made of a file system.

ghost use Rattle.std.specs.Prelude.{◌≡◌, ◌⊎◌, ◌++◌, ℕ, [], ◌∷◌, List, true, false, None, IfOk, IfErr, IfSome, OnOk, string_bytes};
ghost use Rattle.std.specs.IoError.{error_kind};
ghost use Rattle.sqlite_wal.specs.Files.{image_at};
ghost use Rattle.sqlite_std_file.specs.File.{IsFresh};
ghost use Rattle.sqlite_store.specs.FileStore.{view};
ghost use Rattle.sqlite.specs.State.{HasCleanDisk};
ghost use Rattle.sqlite.specs.Held.{IsNew};
ghost use Rattle.sqlite.specs.Start.{FindsIn};
ghost use Rattle.sqlite.specs.Files.{file_state, IsOpened, IsBlankAs, IsCleanLeft, FailsToOpenFiles, LeavesFiles};
ghost use Rattle.record_places.specs.declared.standing.Standing.{Standing};
ghost use Rattle.record_places.specs.Calls.{Call, create, remove, link, settle, open_store};

use crate::standing::Standing;
use sqlite::{Connection, Error, ErrorCode, FileFrom, FileStore, Leftover, Start};
use std::alloc::Global;
use std::io::{self, ErrorKind};

/// The calls that are made of a file system. A function that is generic over it reaches files by these calls alone, so
/// that its contract can say which it makes.
pub trait FileSystem {
    /// These calls have been made, in this order. `Call` says which are counted.
    ghost made: { Self → List Call → Type 0 };

    /// A call that the system did not refuse has given a file this name.
    ghost has_named: { Self → List ℕ → Type 0 };

    /// A look at a path has found this, following a link there.
    ghost finds: { Self → List ℕ → Standing → Type 0 };

    /// A look at a path has shown this, be it a link.
    ghost shows: { Self → List ℕ → Standing → Type 0 };

    /// A look at a path has shown that nothing is there.
    ghost lacks: { Self → List ℕ → Type 0 };

    /// A path leads to this file, whose log has its place at this path, with no link on the way to it.
    ghost leads: { Self → List ℕ → Standing → List ℕ → Type 0 };

    /// What is at a path, or what a link there leads to.
    fn metadata(&self, path: &str) -> io::Result<Standing>
        ensures found { IfOk result (finds self.now path.now) };

    /// What is at a path, be it a link.
    fn symlink_metadata(&self, path: &str) -> io::Result<Standing>
        ensures shown { IfOk result (shows self.now path.now) }
        ensures lacking { IfErr result (λ e. error_kind e ≡ ErrorKind.NotFound
            → lacks self.now path.now) };

    /// The file at a path, and the path of the log beside it, with no link on the way to the file.
    fn log_path(&self, alloc: Global, path: &str) -> io::Result<(Standing, String)>
        ensures led { IfOk result (λ it. leads self.now path.now it.0 (string_bytes it.1)) };

    /// The first octets of a file that may be read and written, at most as many as this. Nothing is written.
    fn first_octets(&self, alloc: Global, path: &str, most: u64) -> io::Result<Vec<u8>>;

    /// Makes an empty file with these permissions. Refused where anything is at the path.
    fn create(&mut self, path: &str, mode: u32) -> io::Result<()>
        ensures made { (done : List Call) → made self.old done
            → made self.new (done ++ (create path.now mode ∷ [])) }
        ensures named { OnOk result (has_named self.new path.now) }
        ensures kept { (name : List ℕ) → has_named self.old name → has_named self.new name };

    /// Removes the name of a file.
    fn remove(&mut self, path: &str) -> io::Result<()>
        ensures made { (done : List Call) → made self.old done
            → made self.new (done ++ (remove path.now ∷ [])) }
        ensures kept { (name : List ℕ) → has_named self.old name → has_named self.new name };

    /// Gives a file a second name. Refused where anything is there.
    fn hard_link(&mut self, original: &str, path: &str) -> io::Result<()>
        ensures made { (done : List Call) → made self.old done
            → made self.new (done ++ (link original.now path.now ∷ [])) }
        ensures named { OnOk result (has_named self.new path.now) }
        ensures kept { (name : List ℕ) → has_named self.old name → has_named self.new name };

    /// Makes the name of the file at a path last over a power cut.
    fn settle(&mut self, path: &str) -> io::Result<()>
        ensures made { (done : List Call) → made self.old done
            → made self.new (done ++ (settle path.now ∷ [])) }
        ensures kept { (name : List ℕ) → has_named self.old name → has_named self.new name };

    /// Opens the store in the file at a path, as `Connection::open_from` does.
    fn open_store<S: Start>(
        &mut self,
        path: &str,
        new_has_sums: bool,
        start: S,
    ) -> Result<Connection<FileStore<FileFrom<S>>>, (Error, Option<Leftover<FileFrom<S>>>)>
        ensures made { (done : List Call) → made self.old done
            → made self.new (done ++ (open_store path.now new_has_sums ∷ [])) }
        ensures kept { (name : List ℕ) → has_named self.old name → has_named self.new name }
        ensures opened { IfOk result (λ c. HasCleanDisk (file_state c) → IsOpened c) }
        ensures found { IfOk result (λ c. HasCleanDisk (file_state c)
            → FindsIn (image_at S.Start) (file_state c)) }
        ensures sums { IfOk result (λ c. HasCleanDisk (file_state c)
            → IsBlankAs new_has_sums (image_at S.Start) → (view c.store).has_sums ≡ new_has_sums) }
        ensures fresh { IfOk result IsNew }
        ensures guarded { IfOk result (λ c. HasCleanDisk (file_state c)
            → (file_state c).IsShielded) }
        ensures unopened { IfErr result (λ e. e.1 ≡ None
            → (e.0 ≡ Error.SqliteFailure ErrorCode.CannotOpen)
            ⊎ ((e.0 ≡ Error.SqliteFailure ErrorCode.OutOfMemory)
            ⊎ (e.0 ≡ Error.SqliteFailure ErrorCode.DatabaseBusy))) }
        ensures cause { IfErr result (λ e. IfSome e.1 (λ left. (files : _)
            × IsFresh true files.log × IsFresh false files.db
            × (IsCleanLeft left → FailsToOpenFiles files left e.0 × LeavesFiles files left))) };
}
