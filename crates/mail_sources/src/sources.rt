//! What old mail is at a path.

use crate::boxes::{BoxFault, BoxReader};
use std::fs;
use std::io::{self, ErrorKind};

/// A place of old mail, at a path.
#[derive(Clone, Copy)]
pub enum Source<'a> {
    Mbox(&'a str),
    /// A folder of files whose names end in `.eml`.
    Folder(&'a str),
    Maildir(&'a str),
}

/// Why there is no old mail at a path.
#[derive(Drop)]
pub enum SourceFault {
    /// It cannot be looked at.
    Io(io::Error),
    /// It is a file and no mbox.
    NoMbox,
    /// It is neither a file nor a folder.
    Neither,
}

impl From<io::Error> for SourceFault {
    fn from(error: io::Error) -> SourceFault {
        SourceFault::Io(error)
    }
}

impl From<BoxFault> for SourceFault {
    fn from(fault: BoxFault) -> SourceFault {
        match fault {
            BoxFault::Io(error) => SourceFault::Io(error),
            BoxFault::NoMbox => SourceFault::NoMbox,
        }
    }
}

/// Whether a folder is a Maildir: it has a folder `cur`.
pub(crate) fn is_maildir(rt: &HostRuntime, folder: &str) -> io::Result<bool> {
    let cur = format!(in rt.alloc(); "{folder}/cur")?;
    match fs::metadata(rt, cur.as_str()) {
        Ok(found) => Ok(found.is_dir()),
        Err(error) if error.kind() == ErrorKind::NotFound => Ok(false),
        Err(error) => Err(error),
    }
}

/// What old mail is at a path: an mbox in a file, a Maildir, or else a folder of `.eml` files.
pub fn source_at<'a>(rt: &HostRuntime, path: &'a str) -> Result<Source<'a>, SourceFault> {
    let found = fs::metadata(rt, path)?;
    if found.is_dir() {
        return if is_maildir(rt, path)? {
            Ok(Source::Maildir(path))
        } else {
            Ok(Source::Folder(path))
        };
    }
    if !found.is_file() {
        return Err(SourceFault::Neither);
    }
    BoxReader::open(rt, path)?;
    Ok(Source::Mbox(path))
}

/// The path of the folder in which the one at a path lies, if it is named `cur` or `new`.
fn folder_around(path: &str) -> Option<&str> {
    let path = path.trim_end_matches('/');
    path.strip_suffix("/cur").or(path.strip_suffix("/new"))
}

/// The path of the Maildir to which the folder at a path belongs, as its `cur` or `new`; none where that is not known.
pub fn maildir_around<'a>(rt: &HostRuntime, path: &'a str) -> Option<&'a str> {
    let folder = folder_around(path)?;
    match is_maildir(rt, folder) {
        Ok(true) => Some(folder),
        Ok(false) | Err(_) => None,
    }
}
