//! Lines of the input, in a fixed array.

ghost use Rattle.std.specs.Prelude.{◌≡◌, ◌<◌, ◌⊎◌, ◌++◌, ◌∷◌, [], length, IfOk, Ok, ◌==◌};
ghost use Rattle.session_protocol.specs.Lines.{line_of, line_as, cut_at};
ghost use Rattle.session_protocol.specs.Told.{TellsReads};

use crate::stream::{ReadFault, Source};
use crate::tries::read_one;
use std::marker::Model;

/// How many octets a line may have, without its LF.
const LINE_OCTETS: usize = 512;

/// A line of at most 512 octets. Contracts see it as the list of its octets.
pub struct LineBuffer {
    octets: [u8; 512],
    len: usize,
}

impl Model for LineBuffer {
    ghost use Rattle.std.specs.Prelude.{List, ℕ, take, ◌≤◌};

    ghost Value = { List ℕ };

    ghost view = { λ b. take b.len b.octets };

    ghost invariant = { λ b. b.len ≤ 512 };
}

impl Drop for LineBuffer {
    fn drop(self) {
        let Self { octets: _, len: _ } = self;
    }
}

impl LineBuffer {
    /// A line without octets.
    pub fn new() -> LineBuffer
        ensures { result ≡ [] }
    {
        LineBuffer {
            octets: [0; 512],
            len: 0,
        }
    }

    fn clear(&mut self)
        ensures { self.new ≡ [] }
    {
        self.len = 0;
    }

    fn push(&mut self, octet: u8)
        requires { length self.old < 512 }
        ensures { self.new ≡ self.old ++ octet ∷ [] }
    {
        self.octets[self.len] = octet;
        self.len += 1;
    }

    fn is_empty(&self) -> bool
        ensures { result ≡ (length self.now == 0) }
    {
        self.len == 0
    }

    /// The octets of the line, without its LF.
    pub fn as_slice(&self) -> &[u8]
        ensures { result.now ≡ self.now }
    {
        &self.octets[..self.len]
    }
}

/// How a line ends.
#[derive(Clone, Copy)]
pub enum LineEnd {
    /// With its LF.
    Whole,
    /// Its first 513 octets have no LF.
    TooLong,
    /// The input ends inside it.
    Cut,
    /// The input ends before its first octet.
    Nothing,
}

/// Reads a line into `line`, without its LF. Nothing after the LF is read, and of a line that is too long 513 octets
/// are read.
#[tactic(auto, using(crate::proofs::FirstLine::line_of_is))]
pub fn read_line<S: Source>(source: &mut S, line: &mut LineBuffer) -> Result<LineEnd, ReadFault>
    ensures line { S.tells → IfOk result
        (λ end. line_of (S.left source.old) ≡ line_as end line.new (S.left source.new)) }
    ensures end { S.tells → (result ≡ Ok LineEnd.Cut) ⊎ (result ≡ Ok LineEnd.Nothing)
        → S.left source.new ≡ [] }
    ensures told { TellsReads S.Source ((result ≡ Ok LineEnd.Cut) ⊎ (result ≡ Ok LineEnd.Nothing))
        result source.old source.new }
{
    line.clear();
    for _ in 0..LINE_OCTETS {
        match read_one(source)? {
            None => return Ok(ending(line)),
            Some(b'\n') => return Ok(LineEnd::Whole),
            Some(octet) => line.push(octet),
        }
    }
    match read_one(source)? {
        None => Ok(ending(line)),
        Some(b'\n') => Ok(LineEnd::Whole),
        Some(_) => Ok(LineEnd::TooLong),
    }
}

/// How a line ends where the input has ended.
fn ending(line: &LineBuffer) -> LineEnd
    ensures { line_as result line.now [] ≡ cut_at line.now }
{
    if line.is_empty() {
        LineEnd::Nothing
    } else {
        LineEnd::Cut
    }
}
