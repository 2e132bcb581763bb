//! What is written for people and programs.

use crate::failure::Failure;
use std::io::{Error, ErrorKind, Read, Write, copy};
use tool_texts::Shown;

/// The failure of a write to standard output, or of a copy to it.
fn write_failure(rt: &HostRuntime, stream: &'static str, error: Error) -> Failure {
    if error.kind() == ErrorKind::BrokenPipe {
        Failure::Closed
    } else {
        Failure::at_stream(rt.alloc(), stream, &error)
    }
}

/// Writes octets to standard output that are data by their purpose: what another program reads. `Closed` where the reader
/// has gone.
pub fn write_data(rt: &HostRuntime, octets: &[u8]) -> Result<(), Failure> {
    rt.stdout()
        .write_all(octets)
        .map_err(|error| write_failure(rt, "standard output", error))
}

/// Writes a text to standard output as it is, as `write_data` does.
pub fn write_text(rt: &HostRuntime, text: &Shown) -> Result<(), Failure> {
    write_data(rt, text.as_str().as_bytes())
}

/// Ends a line by its LF, writes it to standard output as `write_text` does, and leaves an empty one.
pub fn write_line(rt: &HostRuntime, line: &mut Shown) -> Result<(), Failure> {
    line.end_line()?;
    write_text(rt, line)?;
    line.clear();
    Ok(())
}

/// Copies `count` octets from a reader to standard output, or fewer where its input ends before. They are data by their
/// purpose. `Closed` where the reader of the output has gone.
pub fn copy_to_output<R: Read>(
    rt: &HostRuntime,
    reader: &mut R,
    count: u64,
) -> Result<(), Failure> {
    copy(&mut reader.by_ref().take(count), &mut rt.stdout())
        .map(|_| ())
        .map_err(|error| write_failure(rt, "standard input or output", error))
}

/// Writes a text on standard error, after the name of the program.
pub fn tell(rt: &HostRuntime, text: &Shown) {
    let _ = eprintln!(rt; "mailfile-tool: {text}");
}

/// Writes words of the program on standard error, after its name.
pub fn tell_words(rt: &HostRuntime, words: &'static str) {
    let _ = eprintln!(rt; "mailfile-tool: {words}");
}
