//! The folders of a Maildir: new mail lies in `new`, and what was taken over in `cur`.
//!
//! No contract knows what a file system does. So most of these calls are only proved to be safe, and tests show what they do;
//! which names are those of messages is proved.

ghost use Rattle.std.specs.Prelude.{◌≡◌, ◌++◌, map, string_bytes, OnOk};
ghost use Rattle.cli_sources.specs.NewMail.{is_message as is_message_name, if_message};

use std::alloc::{AllocError, Global};
use std::fs::{self, DirEntry, File};
use std::io::{self, Error, ErrorKind};

/// What the name of a message ends with once it was taken over, with no flag.
const SEEN: &str = ":2,";

/// The name of a file by which a move is tried. It begins with a dot, so it is no message.
const TRIAL: &str = ".mailfile-store";

/// The new messages of a Maildir.
#[derive(Drop)]
pub struct NewMail {
    /// The names of the messages, in byte order.
    pub names: Vec<String>,
    /// How many more have names that are no UTF-8, by which they cannot be opened.
    pub nameless: usize,
}

/// The path of a new message.
pub fn new_path(alloc: Global, maildir: &str, name: &str) -> Result<String, AllocError> {
    format!(in alloc; "{maildir}/new/{name}")
}

/// Whether a name in `new` is that of a message: it does not begin with a dot.
fn is_message(name: &[u8]) -> bool
    ensures { result ≡ is_message_name name.now }
{
    match name {
        [] => true,
        [first, ..] => *first != b'.',
    }
}

/// Adds a name, if it is that of a message.
fn add_name(alloc: Global, names: &mut Vec<String>, name: &str) -> Result<(), AllocError>
    ensures { OnOk result (map string_bytes names.new.items
        ≡ map string_bytes names.old.items ++ if_message name.now) }
{
    if is_message(name.as_bytes()) {
        names.push(String::from_str(alloc, name)?)?;
    }
    Ok(())
}

/// Adds the name of an entry, if it has one.
fn add_entry(alloc: Global, entry: io::Result<DirEntry>, mail: &mut NewMail) -> io::Result<()> {
    match entry {
        Ok(entry) => Ok(add_name(alloc, &mut mail.names, entry.file_name())?),
        Err(error) if error.kind() == ErrorKind::InvalidFilename => {
            mail.nameless = mail.nameless.saturating_add(1);
            Ok(())
        }
        Err(error) => Err(error),
    }
}

/// The new messages of a Maildir. Names that begin with a dot are none.
pub fn new_mail(rt: &HostRuntime, maildir: &str) -> io::Result<NewMail> {
    let alloc = rt.alloc();
    let folder = format!(in alloc; "{maildir}/new")?;
    let mut mail = NewMail {
        names: Vec::new(alloc),
        nameless: 0,
    };
    for entry in fs::read_dir(rt, folder.as_str())? {
        add_entry(alloc, entry, &mut mail)?;
    }
    mail.names.sort()?;
    Ok(mail)
}

/// Whether there is a folder to move messages to.
pub fn has_cur(rt: &HostRuntime, maildir: &str) -> io::Result<bool> {
    let folder = format!(in rt.alloc(); "{maildir}/cur")?;
    match fs::metadata(rt, folder.as_str()) {
        Ok(found) => Ok(found.is_dir()),
        Err(error) if error.kind() == ErrorKind::NotFound => Ok(false),
        Err(error) => Err(error),
    }
}

/// Where a message is moved to.
fn path_in_cur(alloc: Global, maildir: &str, name: &str) -> Result<String, AllocError> {
    format!(in alloc; "{maildir}/cur/{name}{SEEN}")
}

/// Finds that a path has nothing, or an empty file of an earlier trial.
fn judge_trial(rt: &HostRuntime, path: &str) -> io::Result<()> {
    match fs::symlink_metadata(rt, path) {
        Ok(found) if found.is_file() && found.len() == 0 => Ok(()),
        Ok(_) => Err(Error::new(
            ErrorKind::AlreadyExists,
            "new or cur has something else of the name .mailfile-store; move it away",
        )),
        Err(error) if error.kind() == ErrorKind::NotFound => Ok(()),
        Err(error) => Err(error),
    }
}

/// Tries to move an empty file as messages are moved, and removes it.
///
/// An error says that no message of this Maildir can be moved now. A file that is there from an earlier trial is used
/// again; anything else of its name stays.
pub fn try_move(rt: &HostRuntime, maildir: &str) -> io::Result<()> {
    let from = new_path(rt.alloc(), maildir, TRIAL)?;
    let to = format!(in rt.alloc(); "{maildir}/cur/{TRIAL}")?;
    judge_trial(rt, from.as_str())?;
    judge_trial(rt, to.as_str())?;
    match File::create_new(rt, from.as_str()) {
        Ok(_) => {}
        Err(error) if error.kind() == ErrorKind::AlreadyExists => {}
        Err(error) => return Err(error),
    }
    match fs::rename(rt, from.as_str(), to.as_str()) {
        Ok(()) => fs::remove_file(rt, to.as_str()),
        Err(error) => {
            let _ = fs::remove_file(rt, from.as_str());
            Err(error)
        }
    }
}

/// Whether `cur` has anything under the name to which a message would be moved, be it a link that leads nowhere.
pub fn is_in_cur(rt: &HostRuntime, maildir: &str, name: &str) -> io::Result<bool> {
    let to = path_in_cur(rt.alloc(), maildir, name)?;
    match fs::symlink_metadata(rt, to.as_str()) {
        Ok(_) => Ok(true),
        Err(error) if error.kind() == ErrorKind::NotFound => Ok(false),
        Err(error) => Err(error),
    }
}

/// Moves a new message to `cur`. Nothing there is replaced.
pub fn move_to_cur(rt: &HostRuntime, maildir: &str, name: &str) -> io::Result<()> {
    let alloc = rt.alloc();
    if is_in_cur(rt, maildir, name)? {
        return Err(Error::new(ErrorKind::AlreadyExists, "cur has a message of this name"));
    }
    let from = new_path(alloc, maildir, name)?;
    let to = path_in_cur(alloc, maildir, name)?;
    fs::rename(rt, from.as_str(), to.as_str())
}

/// Makes the moves so far last over a power cut.
pub fn settle(rt: &HostRuntime, maildir: &str) -> io::Result<()> {
    let cur = format!(in rt.alloc(); "{maildir}/cur")?;
    fs::open(rt, cur.as_str())?.sync_all()?;
    let new = format!(in rt.alloc(); "{maildir}/new")?;
    fs::open(rt, new.as_str())?.sync_all()
}
