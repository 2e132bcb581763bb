//! The standard streams with which the process was started.

use std::fs::File;
use std::io;
use std::os::fd::{AsRawFd, IntoRawFd};

/// How many standard streams there are: their descriptors are the lowest ones.
const STREAMS: i32 = 3;

/// Fills the place of each standard stream without which the process was started, so that no file that is opened later takes
/// it, and gets what is meant for the stream. The root folder stands there, which cannot be read or written: each use fails, as
/// that of a stream does that is closed. Where this folder cannot be opened, no place is filled.
pub fn fill_streams(rt: &HostRuntime) -> io::Result<()> {
    for _ in 0..STREAMS {
        let folder = File::open(rt, "/")?;
        if folder.as_raw_fd() >= STREAMS {
            return Ok(());
        }
        let _ = folder.into_raw_fd();
    }
    Ok(())
}
