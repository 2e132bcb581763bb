//! Files, folders and standard input.

use crate::failure::Failure;
use std::alloc::{AllocError, Global};
use std::fs::{self, File};
use std::io::{BufRead, BufReader, Read};
use thiserror::Error;

/// What standard input is called.
const STANDARD_INPUT: &str = "standard input";

/// What is wrong with a file.
#[derive(Clone, Copy, Debug, Error)]
enum FileFault {
    #[error("longer than {0} octets")]
    TooLong(u64),
    #[error("changed while it was read")]
    Changed,
}

/// Opens a file for reading. A failure names its path.
pub fn open(rt: &HostRuntime, path: &str) -> Result<File, Failure> {
    fs::open(rt, path).map_err(|error| Failure::at(rt.alloc(), path, &error))
}

/// A reader of lines over a file or a stream.
pub fn lines_of<R: Read + Drop>(alloc: Global, reader: R) -> Result<BufReader<R>, Failure> {
    BufReader::new(alloc, reader).map_err(|_| Failure::NoMemory)
}

/// The length that a regular file reports; none for a pipe and the like.
fn told_length(alloc: Global, file: &File, path: &str) -> Result<Option<u64>, Failure> {
    let metadata = file
        .metadata()
        .map_err(|error| Failure::at(alloc, path, &error))?;
    Ok(metadata.is_file().then(|| metadata.len()))
}

/// The octets of a file, which must be as many as the file reported before it was read. A file that reports more than
/// `limit` octets is not read, and no file is read further than one octet past that limit. A failure names its path.
pub fn read_file(rt: &HostRuntime, path: &str, limit: u64) -> Result<Vec<u8>, Failure> {
    let alloc = rt.alloc();
    let file = open(rt, path)?;
    let told = told_length(alloc, &file, path)?;
    if told.unwrap_or(0) > limit {
        return Err(Failure::at(alloc, path, &FileFault::TooLong(limit)));
    }
    let mut octets = Vec::new(alloc);
    file.take(limit.saturating_add(1))
        .read_to_end(&mut octets)
        .map_err(|error| Failure::at(alloc, path, &error))?;
    let length = octets.len() as u64;
    if told.unwrap_or(length) != length {
        return Err(Failure::at(alloc, path, &FileFault::Changed));
    }
    if length > limit {
        return Err(Failure::at(alloc, path, &FileFault::TooLong(limit)));
    }
    Ok(octets)
}

/// The octets of standard input, which must be at most `limit`.
pub fn read_input(rt: &HostRuntime, limit: u64) -> Result<Vec<u8>, Failure> {
    let alloc = rt.alloc();
    let mut octets = Vec::new(alloc);
    rt.stdin()
        .take(limit.saturating_add(1))
        .read_to_end(&mut octets)
        .map_err(|error| Failure::at_stream(alloc, STANDARD_INPUT, &error))?;
    if octets.len() as u64 > limit {
        return Err(Failure::at_stream(alloc, STANDARD_INPUT, &FileFault::TooLong(limit)));
    }
    Ok(octets)
}

/// Reads the next line of a reader, with its LF, in place of what is there; false at the end. The last line may have no
/// LF.
pub fn read_line<R: BufRead>(
    alloc: Global,
    reader: &mut R,
    line: &mut Vec<u8>,
) -> Result<bool, Failure> {
    line.clear();
    let count = reader
        .read_until(b'\n', line)
        .map_err(|error| Failure::at_stream(alloc, STANDARD_INPUT, &error))?;
    Ok(count > 0)
}

/// Whether there is a file at a path.
pub fn is_there(rt: &HostRuntime, path: &str) -> bool {
    fs::metadata(rt, path).is_ok()
}

/// Adds the path of a file in a folder by its name, where that has an ending and does not begin with a dot.
fn add_path(
    alloc: Global,
    paths: &mut Vec<String>,
    path: &str,
    ending: &str,
) -> Result<(), AllocError> {
    let name = path.rsplit_once('/').map_or(path, |(_, name)| name);
    if name.ends_with(ending) && !name.starts_with('.') {
        paths.push(String::from_str(alloc, path)?)?;
    }
    Ok(())
}

/// The paths in a folder that have an ending, in byte order, without those of hidden files, whose names begin with a dot.
/// A failure names the path of the folder.
pub fn paths_in(rt: &HostRuntime, folder: &str, ending: &str) -> Result<Vec<String>, Failure> {
    let alloc = rt.alloc();
    let entries = fs::read_dir(rt, folder).map_err(|error| Failure::at(alloc, folder, &error))?;
    let mut paths = Vec::new(alloc);
    for entry in entries {
        let entry = entry.map_err(|error| Failure::at(alloc, folder, &error))?;
        add_path(alloc, &mut paths, entry.path().to_string_lossy(), ending)?;
    }
    paths.sort()?;
    Ok(paths)
}

/// Writes a file in place of what is there. A failure names its path.
pub fn write_file(rt: &HostRuntime, path: &str, octets: &[u8]) -> Result<(), Failure> {
    fs::write(rt, path, octets).map_err(|error| Failure::at(rt.alloc(), path, &error))
}
