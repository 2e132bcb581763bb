//! What an intake remembers in a Maildir: which messages were told to stay, so that each is told once a day.
//!
//! It is kept in a file whose name begins with a dot, for its owner alone. A new one takes its place as a whole. Its octets
//! are not trusted: a file that is not as this program writes it keeps nothing. Where it cannot be read or written, that is
//! told once in an intake, and messages are told more often.

use crate::intake::Intake;
use cli_sources::payload_of_no_link;
use desk_commands::Payload;
use mail_intake::{Memory, Told};
use std::alloc::{AllocError, Global};
use std::fs::{self, OpenOptions};
use std::io::{self, ErrorKind, Write};
use std::os::unix::fs::OpenOptionsExt;

/// The name of the file in a Maildir, and that of a new one.
const NAME: &str = ".mailfile-store-told";

const NEW_NAME: &str = ".mailfile-store-told.new";

/// How many octets the file has at most.
const MOST: usize = 1_048_576;

/// What is remembered.
pub(crate) struct Recalled {
    pub memory: Memory,
    /// The octets of the file; none where there is no file, or one of too many octets.
    octets: Option<Vec<u8>>,
    /// Whether it was told already that the file cannot be read or written.
    has_failed: bool,
}

impl Drop for Recalled {
    fn drop(self) {
        let Recalled {
            memory: _,
            octets: _,
            has_failed: _,
        } = self;
    }
}

/// A message and the words for its stay.
pub(crate) fn told_of(alloc: Global, name: &str, words: &str) -> Result<Told, AllocError> {
    Ok(Told {
        name: Vec::from_slice(alloc, name.as_bytes())?,
        words: Vec::from_slice(alloc, words.as_bytes())?,
    })
}

/// The path of a file in a Maildir.
fn path_in(alloc: Global, maildir: &str, name: &str) -> io::Result<String> {
    Ok(format!(in alloc; "{maildir}/{name}")?)
}

/// The octets of the file at a path; none where there is none.
fn octets_at(rt: &HostRuntime, path: &str) -> io::Result<Option<Vec<u8>>> {
    match payload_of_no_link(rt, path, MOST) {
        Ok(Payload::Whole(octets)) => Ok(Some(octets)),
        Ok(Payload::TooLong) => Ok(None),
        Ok(Payload::NoMemory) => Err(io::Error::from(ErrorKind::OutOfMemory)),
        Err(error) if error.kind() == ErrorKind::NotFound => Ok(None),
        Err(error) => Err(error),
    }
}

/// What is remembered in a Maildir, where it was told already, or not, that its file cannot be read or written.
fn recall_in(rt: &HostRuntime, maildir: &str, has_failed: bool) -> io::Result<Recalled> {
    let octets = octets_at(rt, path_in(rt.alloc(), maildir, NAME)?.as_str())?;
    let memory = match &octets {
        Some(octets) => Memory::read(rt.alloc(), octets.as_slice())?,
        None => None,
    };
    Ok(Recalled {
        memory: memory.unwrap_or(Memory::none(rt.alloc())),
        octets,
        has_failed,
    })
}

/// Tells that the file cannot be read or written. A lack of memory passes, and is not told.
fn complain(job: &Intake<'_>, error: &io::Error) {
    match error.kind() {
        ErrorKind::OutOfMemory => {}
        _ => job.log.tell_forgotten(job.maildir, NAME, error),
    }
}

/// The same. Where the file cannot be read, nothing is remembered, and that is told, unless it was told already.
pub(crate) fn recall(job: &Intake<'_>, has_failed: bool) -> Recalled {
    let rt = job.rt;
    match recall_in(rt, job.maildir, has_failed) {
        Ok(recalled) => recalled,
        Err(error) => {
            if !has_failed {
                complain(job, &error);
            }
            Recalled {
                memory: Memory::none(rt.alloc()),
                octets: None,
                has_failed: true,
            }
        }
    }
}

/// Removes the file at a path, if there is one.
fn remove_at(rt: &HostRuntime, path: &str) -> io::Result<()> {
    match fs::remove_file(rt, path) {
        Err(error) if error.kind() != ErrorKind::NotFound => Err(error),
        _ => Ok(()),
    }
}

/// Makes a file with these octets, for its owner alone.
fn make_at(rt: &HostRuntime, path: &str, octets: &[u8]) -> io::Result<()> {
    remove_at(rt, path)?;
    let mut file = OpenOptions::new()
        .write(true)
        .create_new(true)
        .mode(0o600)
        .open(rt, path)?;
    file.write_all(octets)?;
    file.sync_all()
}

/// Makes a new file with these octets, and puts it in the place of the one at a path.
fn put_in_place(rt: &HostRuntime, new: &str, path: &str, octets: &[u8]) -> io::Result<()> {
    make_at(rt, new, octets)?;
    fs::rename(rt, new, path)
}

/// Puts a file with these octets in the place of the one that is there.
fn replace(rt: &HostRuntime, maildir: &str, octets: &[u8]) -> io::Result<()> {
    let path = path_in(rt.alloc(), maildir, NAME)?;
    let new = path_in(rt.alloc(), maildir, NEW_NAME)?;
    let done = put_in_place(rt, new.as_str(), path.as_str(), octets);
    if done.is_err() {
        let _ = fs::remove_file(rt, new.as_str());
    }
    done
}

/// A message and the words for its stay once more.
fn copy_of(alloc: Global, told: &Told) -> Result<Told, AllocError> {
    Ok(Told {
        name: Vec::from_slice(alloc, told.name.as_slice())?,
        words: Vec::from_slice(alloc, told.words.as_slice())?,
    })
}

/// Adds what was told, as far as there is room for it. Answers how much room is left.
fn add_copies(
    alloc: Global,
    memory: &mut Memory,
    told: &[Told],
    room: usize,
) -> Result<usize, AllocError> {
    let mut room = room;
    for told in told {
        let octets = told
            .name
            .len()
            .saturating_add(told.words.len())
            .saturating_add(2);
        if octets > room {
            break;
        }
        room -= octets;
        memory.told.push(copy_of(alloc, told)?)?;
    }
    Ok(room)
}

/// What is to be remembered after an intake: what stays. After one that did not come to its end, also what was known before of
/// that day.
fn memory_after(
    alloc: Global,
    before: &Memory,
    day: u64,
    told: &[Told],
    is_whole: bool,
) -> Result<Memory, AllocError> {
    let mut memory = Memory {
        day,
        told: Vec::new(alloc),
    };
    // The day and its NUL have at most 21 octets.
    let room = add_copies(alloc, &mut memory, told, MOST - 21)?;
    if !is_whole && before.day == day {
        add_copies(alloc, &mut memory, before.told.as_slice(), room)?;
    }
    Ok(memory)
}

/// Keeps what is to be remembered, where that is not kept already.
fn keep(rt: &HostRuntime, maildir: &str, recalled: &Recalled, memory: &Memory) -> io::Result<()> {
    if memory.told.is_empty() {
        return match &recalled.octets {
            Some(_) => remove_at(rt, path_in(rt.alloc(), maildir, NAME)?.as_str()),
            None => Ok(()),
        };
    }
    let octets = memory.spelling(rt.alloc())?;
    match &recalled.octets {
        Some(known) if known.as_slice() == octets.as_slice() => Ok(()),
        _ => replace(rt, maildir, octets.as_slice()),
    }
}

/// Forgets what was told, where no message is new. A failure of that is not told: nothing stays that would be told again.
pub(crate) fn forget(job: &Intake<'_>) {
    let rt = job.rt;
    let Ok(path) = path_in(rt.alloc(), job.maildir, NAME) else {
        return;
    };
    if let Ok(Some(_)) = octets_at(rt, path.as_str()) {
        let _ = remove_at(rt, path.as_str());
    }
}

/// Remembers on a day what was told of messages that stay, and forgets what was told before. An intake that did not come to
/// its end forgets nothing of that day. Answers whether it was told by now that this cannot be remembered.
pub(crate) fn renew(
    job: &Intake<'_>,
    recalled: &Recalled,
    day: u64,
    told: &[Told],
    is_whole: bool,
) -> bool {
    let rt = job.rt;
    let done = match memory_after(rt.alloc(), &recalled.memory, day, told, is_whole) {
        Ok(memory) => keep(rt, job.maildir, recalled, &memory),
        Err(AllocError) => Err(io::Error::from(ErrorKind::OutOfMemory)),
    };
    match done {
        Err(error) if !recalled.has_failed => {
            complain(job, &error);
            true
        }
        _ => recalled.has_failed,
    }
}
