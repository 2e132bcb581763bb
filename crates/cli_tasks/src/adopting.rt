//! `create --adopt`: a store that becomes the first volume of a new archive.

use crate::archives::{Archives, Closed, Work, lend, not_made};
use crate::rolling::{had, no_volumes};
use cli_console::{Failure, Status};
use cli_history::open_history;
use cli_volumes::{
    AdoptingFolder, FolderLock, NoVolumes, adopt_into, create_folder, judge_new_folder,
    judge_own_name, lock_folder, move_to_first, note_begun, remove_folder, remove_log,
};
use record_noted::Opened;
use record_store::Store;
use sqlite::{Alter, Connection};

/// Opens a store and its history, where it has one.
#[derive(Drop)]
struct OpenAll;

impl Work for OpenAll {
    type Answer = ();

    fn work<S: Alter>(
        self,
        rt: &HostRuntime,
        archive: Store<S>,
    ) -> (Connection<S>, Result<(), Failure>) {
        match open_history(rt, archive) {
            Ok(Opened::Noted(noted)) => (noted.into_store().into_connection(), Ok(())),
            Ok(Opened::Plain(archive)) => (archive.into_connection(), Ok(())),
            Err((archive, failure)) => (archive.into_connection(), Err(failure)),
        }
    }
}

/// Moves the file of a store to the place of the first volume of a folder. While the store is lent for that, no other program has it.
#[derive(Clone, Copy)]
struct MoveToFirst<'a> {
    file: &'a str,
    folder: &'a str,
}

impl Work for MoveToFirst<'_> {
    type Answer = ();

    fn work<S: Alter>(
        self,
        rt: &HostRuntime,
        archive: Store<S>,
    ) -> (Connection<S>, Result<(), Failure>) {
        let MoveToFirst { file, folder } = self;
        let moved = match move_to_first(rt, file, folder) {
            Ok(()) => Ok(()),
            Err(cause) => Err(not_moved(rt, file, folder, cause)),
        };
        (archive.into_connection(), moved)
    }
}

/// The failure of a file that is not moved: its own, or that of the folder.
fn not_moved(rt: &HostRuntime, file: &str, folder: &str, cause: NoVolumes) -> Failure {
    let path = match &cause {
        NoVolumes::Changed | NoVolumes::Elsewhere => file,
        _ => folder,
    };
    no_volumes(rt, path, cause)
}

/// A new folder, and a file whose store is to be its first volume.
#[derive(Drop)]
struct Adopting<'a, A> {
    rt: &'a HostRuntime,
    archives: &'a A,
    file: &'a str,
    folder: &'a str,
    /// The size of the volumes, in octets.
    size: u64,
    lock: Option<FolderLock>,
}

impl<A: Archives> AdoptingFolder for Adopting<'_, A> {
    type Fault = Failure;

    ghost made = { λ _ _. Unit {0} };

    fn look(&mut self) -> Result<(), Failure> {
        match judge_new_folder(self.rt, self.folder) {
            Ok(()) => Ok(()),
            Err(cause) => Err(not_made(no_volumes(self.rt, self.folder, cause))),
        }
    }

    fn judge(&mut self) -> Result<(), Failure> {
        had(self.rt, self.file, judge_own_name(self.rt, self.file))?;
        match self.archives.lend(self.rt, self.file, OpenAll)? {
            (judged, Closed::Whole) => judged,
            _ => Err(Failure::at(
                self.rt.alloc(),
                Status::TryAgain,
                self.file,
                &"the disk failed, or has no room: its log is not copied into it",
            )),
        }
    }

    fn make(&mut self) -> Result<(), Failure> {
        had(
            self.rt,
            self.folder,
            create_folder(self.rt, self.folder, self.size),
        )
    }

    fn lock(&mut self) -> Result<(), Failure> {
        let lock = had(self.rt, self.folder, lock_folder(self.rt, self.folder))?;
        self.lock = Some(lock);
        Ok(())
    }

    fn place(&mut self) -> Result<(), Failure> {
        let work = MoveToFirst {
            file: self.file,
            folder: self.folder,
        };
        lend(self.rt, self.archives, self.file, work)?;
        remove_log(self.rt, self.file)?;
        Ok(())
    }

    fn note(&mut self) -> Result<(), Failure> {
        had(self.rt, self.folder, note_begun(self.rt, self.folder, 1))
    }

    fn discard(&mut self) {
        let _ = remove_folder(self.rt, self.folder);
    }

    fn unlock(&mut self) {
        self.lock = None;
    }
}

/// Makes an archive of volumes of a size, in octets, in a folder at a path where nothing is: else `CannotMake`. Its first volume is the
/// store in the file at a path, which is moved there, with its plan and its history. Where the file is not moved, it stays as it is, and
/// the folder is removed: `NoInput` where it is a link, `CannotMake` where it lies on another file system, and `TryAgain` where its log is
/// not copied into it, or another program has changed it meanwhile; else as the opening of the store fails.
pub fn adopt<A: Archives>(
    rt: &HostRuntime,
    archives: &A,
    file: &str,
    folder: &str,
    size: u64,
) -> Result<(), Failure> {
    let mut adopting = Adopting {
        rt,
        archives,
        file,
        folder,
        size,
        lock: None,
    };
    adopt_into(&mut adopting)
}
