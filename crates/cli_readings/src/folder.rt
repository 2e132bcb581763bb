//! The files of a folder to which records are exported. None replaces another.

use cli_console::{Failure, Status};
use std::fs::{self, File, OpenOptions};
use std::io::{self, ErrorKind, Write};
use std::os::unix::fs::OpenOptionsExt;

/// The permissions of a file of an export, as of a store.
const MODE: u32 = 0o600;

/// The failure of a file that cannot be made or written.
fn file_failure(rt: &HostRuntime, path: &str, error: io::Error) -> Failure {
    let status = match error.kind() {
        ErrorKind::OutOfMemory => return Failure::NoMemory,
        ErrorKind::StorageFull | ErrorKind::QuotaExceeded => Status::TryAgain,
        _ => Status::CannotMake,
    };
    Failure::at(rt.alloc(), status, path, &error)
}

/// Finds that nothing of a name is in a folder.
pub fn judge_free(rt: &HostRuntime, folder: &str, name: &str) -> Result<(), Failure> {
    let path = format!(in rt.alloc(); "{folder}/{name}")?;
    match fs::symlink_metadata(rt, path.as_str()) {
        Ok(_) => Err(Failure::at(
            rt.alloc(),
            Status::CannotMake,
            path.as_str(),
            &"is there already, and an export replaces nothing",
        )),
        Err(error) if error.kind() == ErrorKind::NotFound => Ok(()),
        Err(error) => Err(file_failure(rt, path.as_str(), error)),
    }
}

/// A new file of a folder, which only its owner may read. One that is there is not replaced.
pub fn make_file(rt: &HostRuntime, folder: &str, name: &str) -> Result<File, Failure> {
    let path = format!(in rt.alloc(); "{folder}/{name}")?;
    let made = OpenOptions::new()
        .write(true)
        .create_new(true)
        .mode(MODE)
        .open(rt, path.as_str());
    match made {
        Ok(file) => Ok(file),
        Err(error) => Err(file_failure(rt, path.as_str(), error)),
    }
}

/// Writes octets to a file of a folder.
pub fn write_to(
    rt: &HostRuntime,
    folder: &str,
    file: &mut File,
    octets: &[u8],
) -> Result<(), Failure> {
    match file.write_all(octets) {
        Ok(()) => Ok(()),
        Err(error) => Err(file_failure(rt, folder, error)),
    }
}

/// Makes the folder, if it is not there.
pub fn make_folder(rt: &HostRuntime, folder: &str) -> Result<(), Failure> {
    match fs::create_dir(rt, folder) {
        Ok(()) => Ok(()),
        Err(error) if error.kind() == ErrorKind::AlreadyExists => Ok(()),
        Err(error) => Err(file_failure(rt, folder, error)),
    }
}

/// A file that lists others. It is made with its first line, so that none without a line is left where the first of the
/// others cannot be made.
#[derive(Drop)]
pub struct ListFile {
    name: &'static str,
    /// What comes before the lines.
    header: &'static str,
    file: Option<File>,
}

impl ListFile {
    /// A file that is not there yet.
    pub fn new(name: &'static str, header: &'static str) -> ListFile {
        ListFile {
            name,
            header,
            file: None,
        }
    }

    /// Writes a line, which may be empty. The file is made with its header first, if it is not there.
    pub fn write(&mut self, rt: &HostRuntime, folder: &str, line: &[u8]) -> Result<(), Failure> {
        if let Some(file) = &mut self.file {
            return write_to(rt, folder, file, line);
        }
        let mut file = make_file(rt, folder, self.name)?;
        write_to(rt, folder, &mut file, self.header.as_bytes())?;
        write_to(rt, folder, &mut file, line)?;
        self.file = Some(file);
        Ok(())
    }
}
