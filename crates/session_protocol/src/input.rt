//! A reader as a session's source. Nothing is claimed about the octets of a terminal, a file or a pipe. Where the
//! readers of a type know what they have left, exactly that is read.

ghost use Rattle.std.specs.Prelude.{◌<◌, ◌≤◌, ◌≡◌, ◌↔◌, [], length, true, IfErr, IfOk};
ghost use Rattle.std.specs.Io.KnownBytes.{ReadConsumes};
ghost use Rattle.std.specs.IoError.{error_kind};
ghost use Rattle.session_protocol.specs.Known.{octets_left};
ghost use Rattle.session_protocol.specs.Streams.{no_troubles};

use crate::stream::{Source, Trouble};
use crate::tally::Tally;
use crate::trouble::{is_interruption, trouble_of};
use crate::window::Window;
use std::io::{self, ErrorKind, Read};

/// The most octets that are read ahead.
const MOST_AHEAD: usize = 8192;

/// A reader that is read ahead, so that a session may ask for one octet at a time.
#[derive(Drop)]
pub struct Input<R> {
    inner: R,
    ahead: Window<MOST_AHEAD>,
    tally: Tally,
    /// How many reads met the end of the input. As with `tally`, contracts alone read it.
    ends: u64,
    /// Whether the last error that the reader gave is an interruption. As with `tally`, contracts alone read it.
    was_interrupted: bool,
}

impl<R: Read> Input<R> {
    /// A source over a reader. What is left is what the reader has left, and no trouble and no end was met yet.
    pub fn new(inner: R) -> Input<R>
        ensures inner { result.inner ≡ inner }
        ensures ahead { result.ahead ≡ [] }
        ensures tally { result.tally ≡ no_troubles }
        ensures ends { result.ends ≡ 0 }
    {
        Input {
            inner,
            ahead: Window::new(),
            tally: Tally::new(),
            ends: 0,
            was_interrupted: false,
        }
    }

    /// Reads octets into the front of `room`, first those that were read ahead, and answers how many. The answer is 0
    /// only at the end of the input.
    fn read_on(&mut self, room: &mut [u8]) -> io::Result<usize>
        requires { 0 < length room.old }
        ensures within { IfOk result (λ n. n ≤ length room.old) }
        ensures octets { ReadConsumes (octets_left R.remaining self.old)
            (octets_left R.remaining self.new) result room.new }
        ensures tally { self.new.tally ≡ self.old.tally }
        ensures ends { self.new.ends ≡ self.old.ends }
        ensures kind { IfErr result (λ e. (self.new.was_interrupted ≡ true)
            ↔ (error_kind e ≡ ErrorKind.Interrupted)) }
    {
        if !self.ahead.is_empty() {
            return Ok(self.ahead.take(room));
        }
        if let Err(error) = self.ahead.fill(&mut self.inner) {
            self.was_interrupted = is_interruption(error.kind());
            return Err(error);
        }
        Ok(self.ahead.take(room))
    }
}

impl<R: Read> Source for Input<R> {
    ghost use Rattle.std.specs.Prelude.{IsSome};
    ghost use Rattle.session_protocol.specs.Known.{known};

    ghost tells = { (r : R) → IsSome (R.remaining r) };

    ghost left = { λ s. known (octets_left R.remaining s) };

    ghost troubles = { λ s. s.tally };

    ghost ends = { λ s. s.ends };

    ghost was_interrupted = { λ s. s.was_interrupted };

    fn read(&mut self, room: &mut [u8]) -> Result<usize, Trouble> {
        if room.is_empty() {
            return Ok(self.tally.count_moved(0));
        }
        match self.read_on(room) {
            Ok(count) => {
                if count == 0 {
                    self.ends = self.ends.saturating_add(1);
                }
                Ok(self.tally.count_moved(count))
            }
            Err(error) => Err(self.tally.count(trouble_of(&error))),
        }
    }
}
