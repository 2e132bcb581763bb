//! The header of a message that comes in pieces.

ghost use Rattle.std.specs.Prelude.{◌≡◌, true, ◌+◌, ◌<◌, ◌≤◌, ◌↔◌, ◌⊎◌, ◌++◌, ◌==◌, [], ℕ, List, length, count_by, IsTrue, IfOk, OnOk, IsErrOf};
ghost use Rattle.std.specs.Vec.{vec_capacity};
ghost use Rattle.mail_head.specs.Pieces.{owned_header_of, reader_of};
ghost use Rattle.mail_head.specs.Parts.{gain, IsOfPiece};
ghost use Rattle.mail_head.specs.declared.buffer.TheConstants.{MAX_OCTETS};
ghost use Rattle.mail_head.specs.declared.buffer.HeadFault.TheVariants.{TooLong, NoMemory};

use crate::buffer::{HeadFault, HeaderBuffer};
use crate::owned::PieceHead;
use crate::parts::HeaderPart;
use std::alloc::{AllocError, Global};
use std::marker::Model;

/// A reader that is fed a message piece by piece. It keeps the octets of the header and none of the body. It also
/// reserves four octets for each line end of the header, so that `finish` allocates nothing.
#[derive(Drop)]
pub struct HeadReader {
    header: HeaderBuffer,
    /// At least the number of line ends in the header.
    line_ends: usize,
    /// Empty, with room for the start of each field that the header can have.
    starts: Vec<u32>,
}

impl Model for HeadReader {
    ghost use Rattle.std.specs.Vec.{vec_capacity};
    ghost use Rattle.mail_head.specs.Pieces.{Reader};
    ghost use Rattle.mail_head.specs.Readers.{IsReady};

    ghost Value = { Reader };

    ghost view = { λ r. r.header };

    ghost invariant = { λ r.
        IsReady r.header.kept r.header.size r.line_ends r.starts.items (vec_capacity r.starts) };
}

impl HeadReader {
    /// A reader that was fed nothing. It allocates nothing yet.
    pub fn new(alloc: Global) -> HeadReader
        ensures { result ≡ reader_of [] }
    {
        HeadReader {
            header: HeaderBuffer::new(alloc),
            line_ends: 0,
            starts: Vec::new(alloc),
        }
    }

    /// Takes the next piece, which may be empty. Refuses with `TooLong` (1) where the message would then have more than
    /// 8,388,608 octets, and again in every later call. Refuses with `NoMemory` (99) and leaves the reader unchanged.
    pub fn feed(&mut self, piece: &[u8]) -> Result<(), HeadFault>
        ensures fed { (message : List ℕ) → self.old ≡ reader_of message →
            OnOk result (self.new ≡ reader_of (message ++ piece.now)) }
        ensures too_long { (result ≡ Err TooLong) ↔
            (IsTrue self.old.refuses ⊎ (MAX_OCTETS < self.old.size + length piece.now)) }
        ensures for_good { result ≡ Err TooLong → self.new ≡ record self.old { refuses = true } }
        ensures no_memory { result ≡ Err NoMemory → self.new ≡ self.old }
    {
        let part = self.header.next_part(piece)?;
        let line_ends = self.line_ends + line_ends_gained(piece, part);
        make_room(&mut self.starts, line_ends)?;
        self.header.add(piece, part)?;
        self.line_ends = line_ends;
        Ok(())
    }

    /// The header of the message that was fed. It allocates nothing. The one refusal is `TooLong` (1), exactly where a
    /// `feed` answered it.
    pub fn finish(self) -> Result<PieceHead, HeadFault>
        ensures head { (message : List ℕ) → self ≡ reader_of message
            → IfOk result (λ h. h ≡ owned_header_of message) }
        ensures too_long { IsErrOf result TooLong ↔ IsTrue self.refuses }
        ensures no_other { result ≡ Err NoMemory → ⊥ }
    {
        let HeadReader { header, starts, .. } = self;
        header.octets()?;
        let size = header.size();
        Ok(PieceHead::from_octets(header.into_octets(), starts, size))
    }
}

/// How many LF are among the octets of a piece that belong to the header.
fn line_ends_gained(piece: &[u8], part: HeaderPart) -> usize
    requires { IsOfPiece piece.now part }
    ensures value { result ≡ count_by (λ b. b == 10) (gain piece.now part) }
    ensures within { result ≤ length piece.now }
{
    match part {
        HeaderPart::LessCr => 0,
        HeaderPart::Front(len) => line_end_count(&piece[..len]),
    }
}

/// How many LF the text has.
fn line_end_count(text: &[u8]) -> usize
    ensures value { result ≡ count_by (λ b. b == 10) text.now }
    ensures within { result ≤ length text.now }
{
    text.iter().filter(|octet| **octet == b'\n').count()
}

/// Makes room for one start more than there are line ends. The room is at most a quarter more than that, or what it was
/// before.
fn make_room(starts: &mut Vec<u32>, line_ends: usize) -> Result<(), AllocError>
    requires empty { starts.old.items ≡ [] }
    requires few { line_ends ≤ MAX_OCTETS }
    ensures ok { OnOk result (line_ends < vec_capacity starts.new) }
    ensures empty { starts.new.items ≡ [] }
    ensures room { vec_capacity starts.old ≤ vec_capacity starts.new }
{
    if starts.capacity() <= line_ends {
        starts.reserve_exact(line_ends + 1 + line_ends / 4)?;
    }
    Ok(())
}
