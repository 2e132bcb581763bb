//! Archives in files, which are opened, closed and made here alone.

use class_plan::Plan;
use cli_console::{Failure, Status};
use cli_files::{NoStore, create_archive, draft_for, give_place, open_archive, remove_files};
use cli_tasks::{Archives, Closed, Filling, Work};
use record_files::{Closing, close};
use record_places::System;
use record_store::Store;
use sqlite::{Alter, Connection, FileFrom, FileStore, Unknown};
use std::alloc::Global;
use std::fs;

/// The failure of a store that cannot be had.
fn no_store(alloc: Global, path: &str, cause: NoStore) -> Failure {
    let status = match cause {
        NoStore::NotThere | NoStore::NoFile | NoStore::OpenLog | NoStore::System(_) => {
            Status::NoInput
        },
        NoStore::There | NoStore::StrayLog | NoStore::Unfinished => Status::CannotMake,
        NoStore::Busy | NoStore::Full | NoStore::Disk => Status::TryAgain,
        NoStore::NoMemory => return Failure::NoMemory,
        _ => Status::BadData,
    };
    Failure::at(alloc, status, path, &cause)
}

/// The failure of a store that cannot be made.
fn not_made(alloc: Global, path: &str, cause: NoStore) -> Failure {
    match cause {
        NoStore::NotThere => Failure::at(alloc, Status::CannotMake, path, &"no such folder"),
        cause => no_store(alloc, path, cause),
    }
}

/// What is said of a path at which there is a folder.
const FOLDER: &str = "a folder; a store is a file, as records.db in it";

/// The failure of a store that cannot be had, or cannot be made, where there is a folder at its path; else this one.
fn unless_folder(rt: &HostRuntime, path: &str, status: Status, failure: Failure) -> Failure {
    match fs::metadata(rt, path) {
        Ok(found) if found.is_dir() => Failure::at(rt.alloc(), status, path, &FOLDER),
        _ => failure,
    }
}

/// How files were closed that were left in this way.
fn closed_by(closing: Closing) -> Closed {
    match closing {
        Closing::Copied => Closed::Whole,
        Closing::Logged(_) => Closed::WithLog,
        Closing::Shut => Closed::Doubtful,
    }
}

/// The store in the file at a path.
fn open_at(rt: &HostRuntime, path: &str) -> Result<Store<FileStore<FileFrom<Unknown>>>, Failure> {
    open_archive(&mut System::new(rt), rt.alloc(), path, Unknown).map_err(|cause| unless_folder(
        rt,
        path,
        Status::NoInput,
        no_store(rt.alloc(), path, cause),
    ))
}

/// Archives, each in the file at its path and the log beside it.
#[derive(Clone, Copy)]
pub struct FileArchives;

impl Archives for FileArchives {
    type Kept = FileStore<FileFrom<Unknown>>;

    // No state of files is followed here: what is proved over any archives holds over these.
    ghost is_at = { λ archives path store. Unit {0} };

    fn lend<W: Work>(
        &self,
        rt: &HostRuntime,
        path: &str,
        work: W,
    ) -> Result<(Result<W::Answer, Failure>, Closed), Failure> {
        match open_at(rt, path) {
            Ok(archive) => {
                let (conn, done) = work.work(rt, archive);
                let (_files, closing) = close(rt.alloc(), conn);
                Ok((done, closed_by(closing)))
            }
            Err(failure) => Err(failure),
        }
    }

    fn lend_to_fill<F: Filling, S: Alter>(
        &self,
        rt: &HostRuntime,
        draft: &str,
        filling: F,
        from: &mut Connection<S>,
    ) -> Result<(Result<(), Failure>, Closed), Failure> {
        match open_at(rt, draft) {
            Ok(archive) => {
                let (conn, done) = filling.fill(rt, archive, from);
                let (_files, closing) = close(rt.alloc(), conn);
                Ok((done, closed_by(closing)))
            }
            Err(failure) => Err(failure),
        }
    }

    fn create(&self, rt: &HostRuntime, path: &str, plan: Plan) -> Result<String, Failure> {
        let alloc = rt.alloc();
        let mut system = System::new(rt);
        let draft = draft_for(&system, alloc, path).map_err(|cause| unless_folder(
            rt,
            path,
            Status::CannotMake,
            not_made(alloc, path, cause),
        ))?;
        match create_archive(&mut system, alloc, draft.as_str(), plan, Unknown) {
            Ok(_files) => Ok(draft),
            Err(cause) => {
                // What is in the way of the draft lies beside its path, and not beside that of the store.
                let place = match cause {
                    NoStore::StrayLog | NoStore::There => draft.as_str(),
                    _ => path,
                };
                Err(not_made(alloc, place, cause))
            }
        }
    }

    fn give_place(&self, rt: &HostRuntime, draft: &str, path: &str) -> Result<(), Failure> {
        let alloc = rt.alloc();
        give_place(&mut System::new(rt), alloc, draft, path).map_err(|cause| not_made(
            alloc, path, cause,
        ))
    }

    fn remove(&self, rt: &HostRuntime, draft: &str) {
        remove_files(&mut System::new(rt), rt.alloc(), draft);
    }
}
