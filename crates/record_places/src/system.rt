//! The system's own file system.

use crate::file_system::FileSystem;
use crate::opening::open_from;
use crate::standing::Standing;
use sqlite::{Connection, Error, FileFrom, FileStore, Leftover, Start};
use std::alloc::Global;
use std::fs::{self, OpenOptions};
use std::io::{self, Read};
use std::os::unix::fs::OpenOptionsExt;

/// The system's own file system. It keeps no list of its calls: what is proved of a function over each `FileSystem` holds
/// of this one.
#[derive(Clone, Copy)]
pub struct System<'a> {
    rt: &'a HostRuntime,
}

impl<'a> System<'a> {
    /// The file system that a program has.
    pub fn new(rt: &'a HostRuntime) -> System<'a> {
        System { rt }
    }
}

/// The folder in which the file at a path is.
fn folder_of(path: &str) -> &str {
    match path.rsplit_once('/') {
        Some(("", _)) => "/",
        Some((folder, _)) => folder,
        None => ".",
    }
}

impl<'a> FileSystem for System<'a> {
    ghost made = { λ _ _. Unit {0} };

    ghost has_named = { λ _ _. Unit {0} };

    ghost finds = { λ _ _ _. Unit {0} };

    ghost shows = { λ _ _ _. Unit {0} };

    ghost lacks = { λ _ _. Unit {0} };

    ghost leads = { λ _ _ _ _. Unit {0} };

    fn metadata(&self, path: &str) -> io::Result<Standing> {
        let found = fs::metadata(self.rt, path)?;
        Ok(Standing::of(&found))
    }

    fn symlink_metadata(&self, path: &str) -> io::Result<Standing> {
        let found = fs::symlink_metadata(self.rt, path)?;
        Ok(Standing::of(&found))
    }

    fn log_path(&self, alloc: Global, path: &str) -> io::Result<(Standing, String)> {
        let real = fs::canonicalize(self.rt, path)?;
        let store = self.symlink_metadata(real.as_str())?;
        let log = format!(in alloc; "{}-wal", real.as_str())?;
        Ok((store, log))
    }

    fn first_octets(&self, alloc: Global, path: &str, most: u64) -> io::Result<Vec<u8>> {
        let file = OpenOptions::new()
            .read(true)
            .write(true)
            .open(self.rt, path)?;
        let mut octets = Vec::new(alloc);
        file.take(most).read_to_end(&mut octets)?;
        Ok(octets)
    }

    fn create(&mut self, path: &str, mode: u32) -> io::Result<()> {
        OpenOptions::new()
            .write(true)
            .create_new(true)
            .mode(mode)
            .open(self.rt, path)?;
        Ok(())
    }

    fn remove(&mut self, path: &str) -> io::Result<()> {
        fs::remove_file(self.rt, path)
    }

    fn hard_link(&mut self, original: &str, path: &str) -> io::Result<()> {
        fs::hard_link(self.rt, original, path)
    }

    fn settle(&mut self, path: &str) -> io::Result<()> {
        fs::open(self.rt, folder_of(path))?.sync_all()
    }

    fn open_store<S: Start>(
        &mut self,
        path: &str,
        new_has_sums: bool,
        start: S,
    ) -> Result<Connection<FileStore<FileFrom<S>>>, (Error, Option<Leftover<FileFrom<S>>>)> {
        let octets = self.metadata(path).map_or(0, |found| found.octets);
        open_from(self.rt, path, octets, new_has_sums, start)
    }
}
