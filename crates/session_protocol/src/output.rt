//! A writer as a session's sink. Nothing is claimed about the octets of a terminal, a file or a pipe. Where the writers
//! of a type know what they have taken, exactly what is written is given to them.

ghost use Rattle.std.specs.Prelude.{◌≡◌, ◌≤◌, ◌↔◌, length, true, IfErr, IfOk};
ghost use Rattle.std.specs.Io.KnownBytes.{WriteAppends};
ghost use Rattle.std.specs.IoError.{error_kind};
ghost use Rattle.session_protocol.specs.Streams.{no_troubles};

use crate::stream::{Sink, Trouble};
use crate::tally::Tally;
use crate::trouble::{is_interruption, trouble_of};
use std::io::{self, ErrorKind, Write};

/// A writer that is given all octets at once.
#[derive(Drop)]
pub struct Output<W> {
    inner: W,
    tally: Tally,
    /// Whether the last error that the writer gave is an interruption. As with `tally`, contracts alone read it.
    was_interrupted: bool,
}

impl<W: Write> Output<W> {
    /// A sink over a writer, which has met no trouble yet.
    pub fn new(inner: W) -> Output<W>
        ensures inner { result.inner ≡ inner }
        ensures tally { result.tally ≡ no_troubles }
    {
        Output {
            inner,
            tally: Tally::new(),
            was_interrupted: false,
        }
    }

    /// Writes octets by one call, and answers how many the writer took. The kind of an error is kept.
    fn write_through(&mut self, octets: &[u8]) -> io::Result<usize>
        ensures within { IfOk result (λ n. n ≤ length octets.now) }
        ensures octets { WriteAppends (W.contents self.old.inner) (W.contents self.new.inner) result
            octets.now }
        ensures tally { self.new.tally ≡ self.old.tally }
        ensures kind { IfErr result (λ e. (self.new.was_interrupted ≡ true)
            ↔ (error_kind e ≡ ErrorKind.Interrupted)) }
    {
        let written = self.inner.write(octets);
        if let Err(error) = &written {
            self.was_interrupted = is_interruption(error.kind());
        }
        written
    }
}

impl<W: Write> Sink for Output<W> {
    ghost use Rattle.std.specs.Prelude.{IsSome};
    ghost use Rattle.session_protocol.specs.Known.{known};

    ghost tells = { (w : W) → IsSome (W.contents w) };

    ghost written = { λ s. known (W.contents s.inner) };

    ghost troubles = { λ s. s.tally };

    ghost was_interrupted = { λ s. s.was_interrupted };

    fn write(&mut self, octets: &[u8]) -> Result<usize, Trouble> {
        if octets.is_empty() {
            return Ok(self.tally.count_moved(0));
        }
        match self.write_through(octets) {
            Ok(0) => {
                let _ = self.tally.count(Trouble::Failed);
                Ok(0)
            }
            Ok(count) => Ok(self.tally.count_moved(count)),
            Err(error) => Err(self.tally.count(trouble_of(&error))),
        }
    }
}
