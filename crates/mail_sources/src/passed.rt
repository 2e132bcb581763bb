//! What lies beside the messages of a folder or a Maildir, and is not taken with them.

use crate::files::is_eml;
use crate::sources::{Source, is_maildir};
use std::fs::{self, DirEntry};
use std::io::{self, ErrorKind};

/// What lies in a folder beside its messages.
#[derive(Drop)]
pub struct PassedOver {
    /// How many files. Those whose names begin with a dot are not counted, nor those of a Maildir.
    pub files: usize,
    /// How many folders, counted in the same way, that are no Maildirs.
    pub folders: usize,
    /// The paths of the folders in it that are Maildirs, such as `.Sent` in a Maildir, in byte order.
    pub maildirs: Vec<String>,
}

/// What lies at a path.
#[derive(Clone, Copy)]
enum Kind {
    Maildir,
    Folder,
    Other,
}

/// What lies at a path. What cannot be looked at is no folder.
fn kind_at(rt: &HostRuntime, path: &str) -> Kind {
    match fs::metadata(rt, path) {
        Ok(found) if found.is_dir() => match is_maildir(rt, path) {
            Ok(true) => Kind::Maildir,
            Ok(false) | Err(_) => Kind::Folder,
        },
        Ok(_) | Err(_) => Kind::Other,
    }
}

/// Whether an entry of a source is where its messages are.
fn is_taken(source: Source<'_>, name: &str) -> bool {
    match source {
        Source::Mbox(_) => true,
        Source::Folder(_) => is_eml(name),
        Source::Maildir(_) => matches!(name, "cur" | "new" | "tmp"),
    }
}

/// Whether files and folders are counted that lie in a source under this name.
fn is_counted(source: Source<'_>, name: &str) -> bool {
    matches!(source, Source::Folder(_)) && !name.starts_with('.')
}

impl PassedOver {
    /// Adds the entry of a name in the folder at a path, which is a source.
    fn add_named(
        &mut self,
        rt: &HostRuntime,
        source: Source<'_>,
        folder: &str,
        name: &str,
    ) -> io::Result<()> {
        if is_taken(source, name) {
            return Ok(());
        }
        let path = format!(in rt.alloc(); "{folder}/{name}")?;
        match kind_at(rt, path.as_str()) {
            Kind::Maildir => self.maildirs.push(path)?,
            Kind::Folder if is_counted(source, name) => {
                self.folders = self.folders.saturating_add(1);
            }
            Kind::Other if is_counted(source, name) => self.files = self.files.saturating_add(1),
            Kind::Folder | Kind::Other => {}
        }
        Ok(())
    }

    /// Adds an entry, unless its name is no UTF-8.
    fn add(
        &mut self,
        rt: &HostRuntime,
        source: Source<'_>,
        folder: &str,
        entry: io::Result<DirEntry>,
    ) -> io::Result<()> {
        match entry {
            Ok(entry) => self.add_named(rt, source, folder, entry.file_name()),
            Err(error) if error.kind() == ErrorKind::InvalidFilename => Ok(()),
            Err(error) => Err(error),
        }
    }

    /// What lies in the folder of a source beside its messages; nothing beside those of an mbox.
    pub fn of(rt: &HostRuntime, source: Source<'_>) -> io::Result<PassedOver> {
        let mut passed = PassedOver {
            files: 0,
            folders: 0,
            maildirs: Vec::new(rt.alloc()),
        };
        let path = match source {
            Source::Mbox(_) => return Ok(passed),
            Source::Folder(path) | Source::Maildir(path) => path,
        };
        for entry in fs::read_dir(rt, path)? {
            passed.add(rt, source, path, entry)?;
        }
        passed.maildirs.sort()?;
        Ok(passed)
    }
}
