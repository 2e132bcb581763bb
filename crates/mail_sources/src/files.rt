//! The files of a folder that have a message each.

use std::alloc::{AllocError, Global};
use std::fs::{self, DirEntry};
use std::io::{self, ErrorKind};

/// Which files of a folder have a message.
#[derive(Clone, Copy)]
enum Naming {
    /// Those whose names end in `.eml`.
    Eml,
    /// All.
    Any,
}

/// The files of a folder with a message each. Files whose names begin with a dot are none.
#[derive(Drop)]
pub struct MailFiles {
    /// Their paths, in byte order of their names.
    pub paths: Vec<String>,
    /// How many more have names that are no UTF-8, by which they cannot be opened.
    pub nameless: usize,
}

/// Whether the file of a name has a message.
fn has_message(name: &str, naming: Naming) -> bool {
    let is_named = match naming {
        Naming::Eml => name.ends_with(".eml") || name.ends_with(".EML"),
        Naming::Any => true,
    };
    is_named && !name.starts_with('.')
}

/// Whether a name is that of a file of a folder that has a message.
pub(crate) fn is_eml(name: &str) -> bool {
    has_message(name, Naming::Eml)
}

/// Adds the name of an entry to those of a folder's messages, if it is one of them. Answers whether it has a name.
fn add_name(
    alloc: Global,
    entry: io::Result<DirEntry>,
    naming: Naming,
    names: &mut Vec<String>,
) -> io::Result<bool> {
    match entry {
        Ok(entry) => {
            let name = entry.file_name();
            if has_message(name, naming) {
                names.push(String::from_str(alloc, name)?)?;
            }
            Ok(true)
        }
        Err(error) if error.kind() == ErrorKind::InvalidFilename => Ok(false),
        Err(error) => Err(error),
    }
}

/// Adds the names of a folder's messages. Answers how many entries have none.
fn add_names(
    rt: &HostRuntime,
    folder: &str,
    naming: Naming,
    names: &mut Vec<String>,
) -> io::Result<usize> {
    let mut nameless: usize = 0;
    for entry in fs::read_dir(rt, folder)? {
        if !add_name(rt.alloc(), entry, naming, names)? {
            nameless = nameless.saturating_add(1);
        }
    }
    names.sort()?;
    Ok(nameless)
}

/// Adds the paths of a folder's messages.
fn add_paths(
    alloc: Global,
    folder: &str,
    names: &[String],
    paths: &mut Vec<String>,
) -> Result<(), AllocError> {
    for name in names {
        paths.push(format!(in alloc; "{folder}/{name}")?)?;
    }
    Ok(())
}

impl MailFiles {
    /// No files.
    fn none(alloc: Global) -> MailFiles {
        MailFiles {
            paths: Vec::new(alloc),
            nameless: 0,
        }
    }

    /// Adds the messages of a folder.
    fn add(&mut self, rt: &HostRuntime, folder: &str, naming: Naming) -> io::Result<()> {
        let mut names = Vec::new(rt.alloc());
        let nameless = add_names(rt, folder, naming, &mut names)?;
        add_paths(rt.alloc(), folder, names.as_slice(), &mut self.paths)?;
        self.nameless = self.nameless.saturating_add(nameless);
        Ok(())
    }

    /// The files of a folder whose names end in `.eml`.
    pub fn of_folder(rt: &HostRuntime, folder: &str) -> io::Result<MailFiles> {
        let mut files = MailFiles::none(rt.alloc());
        files.add(rt, folder, Naming::Eml)?;
        Ok(files)
    }

    /// The messages of a Maildir: those of its folder `cur`, and then those of `new`, if it has one.
    pub fn of_maildir(rt: &HostRuntime, maildir: &str) -> io::Result<MailFiles> {
        let cur = format!(in rt.alloc(); "{maildir}/cur")?;
        let new = format!(in rt.alloc(); "{maildir}/new")?;
        let mut files = MailFiles::none(rt.alloc());
        files.add(rt, cur.as_str(), Naming::Any)?;
        match files.add(rt, new.as_str(), Naming::Any) {
            Err(error) if error.kind() != ErrorKind::NotFound => Err(error),
            _ => Ok(files),
        }
    }
}
