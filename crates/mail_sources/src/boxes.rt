//! The messages of an mbox in a file, one at a time.

use mail_boxes::{BoxMessage, MessageSplitter, UndatedLines};
use std::alloc::AllocError;
use std::fs::{self, File};
use std::io::{self, BufRead, BufReader};

/// How many octets of a line are kept: two more than a message may have. A line that is longer makes its message too long, also
/// without an octet of quoting.
const LONGEST_LINE: usize = 8_388_610;

/// Why there are no messages in a file.
#[derive(Drop)]
pub enum BoxFault {
    /// The file cannot be read.
    Io(io::Error),
    /// It is no mbox: its first line is no separator.
    NoMbox,
}

impl From<io::Error> for BoxFault {
    fn from(error: io::Error) -> BoxFault {
        BoxFault::Io(error)
    }
}

/// Adds octets to a line, as far as there is room for them.
fn push_within(line: &mut Vec<u8>, octets: &[u8]) -> Result<(), AllocError> {
    let room = LONGEST_LINE.saturating_sub(line.len());
    let (kept, _) = octets.split_at(octets.len().min(room));
    line.extend_from_slice(kept)
}

/// Takes what the buffer of a reader has of a line. Answers whether the line goes on.
fn push_part(reader: &mut BufReader<File>, line: &mut Vec<u8>) -> io::Result<bool> {
    let buffered = reader.fill_buf()?;
    let (length, ends) = match buffered.iter().position(|octet| *octet == b'\n') {
        Some(place) => (place + 1, true),
        None => (buffered.len(), buffered.is_empty()),
    };
    let (part, _) = buffered.split_at(length);
    push_within(line, part)?;
    reader.consume(length);
    Ok(!ends)
}

/// Reads the next line of a reader, with its end, in place of what is there; an empty one at the end of the file.
fn read_line(reader: &mut BufReader<File>, line: &mut Vec<u8>) -> io::Result<()> {
    line.clear();
    for _ in 0..u64::MAX {
        if !push_part(reader, line)? {
            break;
        }
    }
    Ok(())
}

/// The messages of an mbox in a file.
pub struct BoxReader {
    reader: BufReader<File>,
    /// None at the end of the file.
    splitter: Option<MessageSplitter>,
    line: Vec<u8>,
    undated: UndatedLines,
}

impl Drop for BoxReader {
    fn drop(self) {
        let BoxReader {
            reader: _,
            splitter: _,
            line: _,
            undated: _,
        } = self;
    }
}

impl BoxReader {
    /// The messages of the mbox at a path, which has none where it is empty.
    pub fn open(rt: &HostRuntime, path: &str) -> Result<BoxReader, BoxFault> {
        let alloc = rt.alloc();
        let mut reader = BufReader::new(alloc, fs::open(rt, path)?)?;
        let mut line = Vec::new(alloc);
        read_line(&mut reader, &mut line)?;
        let splitter = MessageSplitter::begin(alloc, line.as_slice());
        if splitter.is_none() && !line.is_empty() {
            return Err(BoxFault::NoMbox);
        }
        let mut undated = UndatedLines::none();
        undated.take(line.as_slice());
        Ok(BoxReader {
            reader,
            splitter,
            line,
            undated,
        })
    }

    /// Which of the lines so far look like separators and have no date, so that they belong to messages.
    pub fn undated(&self) -> UndatedLines {
        self.undated
    }

    /// The next message; none at the end. After an error there are no more.
    pub fn next_message(&mut self) -> io::Result<Option<BoxMessage>> {
        let Some(mut splitter) = self.splitter.take() else {
            return Ok(None);
        };
        for _ in 0..u64::MAX {
            read_line(&mut self.reader, &mut self.line)?;
            if self.line.is_empty() {
                break;
            }
            self.undated.take(self.line.as_slice());
            if let Some(message) = splitter.feed(self.line.as_slice())? {
                self.splitter = Some(splitter);
                return Ok(Some(message));
            }
        }
        Ok(Some(splitter.finish()))
    }
}
