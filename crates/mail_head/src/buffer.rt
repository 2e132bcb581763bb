//! The octets of the header of a message that comes in pieces.

ghost use Rattle.std.specs.Prelude.{◌≡◌, true, ◌+◌, ◌<◌, ◌≤◌, ◌↔◌, ◌⊎◌, ◌++◌, [], ℕ, List, length, IsTrue, IfOk, OnOk, OnErr, IsErrOf};
ghost use Rattle.mail_head.specs.Pieces.{header_octets, reader_of};
ghost use Rattle.mail_head.specs.Parts.{with_part, IsNextPart, IsOfPiece};

use crate::parts::{HeaderPart, header_part};
use std::alloc::{AllocError, Global};
use std::marker::Model;
use thiserror::Error;

/// The most octets that a message may have: 8 MiB.
pub const MAX_OCTETS: u64 = 8_388_608;

/// Why a reader refuses a message.
#[derive(Clone, Copy, Debug, Error)]
pub enum HeadFault {
    /// 1: the message has more than 8,388,608 octets.
    #[error("the message has more than 8388608 octets")]
    TooLong,
    /// 99: out of memory.
    #[error("out of memory")]
    NoMemory,
}

impl HeadFault {
    ghost use Rattle.mail_head.specs.Faults.{number_of};

    /// The refusal's number, 1 or 99.
    pub fn number(self) -> u8
        ensures { result ≡ number_of self }
    {
        match self {
            HeadFault::TooLong => 1,
            HeadFault::NoMemory => 99,
        }
    }
}

impl From<AllocError> for HeadFault {
    ghost use Rattle.std.specs.Prelude.{◌≡◌};
    ghost use Rattle.mail_head.specs.declared.buffer.HeadFault.TheVariants.{NoMemory};

    ghost from_gives = { λ _ fault. fault ≡ NoMemory };

    fn from(_error: AllocError) -> HeadFault {
        HeadFault::NoMemory
    }
}

/// A buffer that is fed a message piece by piece. It keeps the octets of the header and none of the body, with a
/// capacity of at most a quarter more than it keeps.
#[derive(Drop)]
pub struct HeaderBuffer {
    kept: Vec<u8>,
    size: u64,
    refuses: bool,
}

impl Model for HeaderBuffer {
    ghost use Rattle.mail_head.specs.Pieces.{Reader};
    ghost use Rattle.mail_head.specs.Readers.{IsBounded};

    ghost Value = { Reader };

    ghost view = { λ b. record { kept = b.kept.items; size = b.size; refuses = b.refuses } };

    ghost invariant = { λ b. IsBounded b.kept.items b.size };
}

impl HeaderBuffer {
    /// A buffer that was fed nothing. It allocates nothing yet.
    pub fn new(alloc: Global) -> HeaderBuffer
        ensures { result ≡ reader_of [] }
    {
        HeaderBuffer {
            kept: Vec::new(alloc),
            size: 0,
            refuses: false,
        }
    }

    /// Takes the next piece, which may be empty. Refuses with `TooLong` (1) where the message would then have more than
    /// 8,388,608 octets, and again in every later call. Refuses with `NoMemory` (99) and leaves the buffer unchanged.
    pub fn feed(&mut self, piece: &[u8]) -> Result<(), HeadFault>
        ensures fed { (message : List ℕ) → self.old ≡ reader_of message →
            OnOk result (self.new ≡ reader_of (message ++ piece.now)) }
        ensures too_long { (result ≡ Err HeadFault.TooLong) ↔
            (IsTrue self.old.refuses ⊎ (MAX_OCTETS < self.old.size + length piece.now)) }
        ensures for_good { result ≡ Err HeadFault.TooLong
            → self.new ≡ record self.old { refuses = true } }
        ensures no_memory { result ≡ Err HeadFault.NoMemory → self.new ≡ self.old }
    {
        let part = self.next_part(piece)?;
        self.add(piece, part)?;
        Ok(())
    }

    /// What the next piece adds to the header. The one refusal is `TooLong` (1), in the cases of `feed`.
    pub(crate) fn next_part(&mut self, piece: &[u8]) -> Result<HeaderPart, HeadFault>
        ensures part { IfOk result (IsNextPart self.old piece.now) }
        ensures room { OnOk result (self.old.size + length piece.now ≤ MAX_OCTETS) }
        ensures ok { OnOk result (self.new ≡ self.old) }
        ensures only { OnErr result (result ≡ Err HeadFault.TooLong) }
        ensures too_long { (result ≡ Err HeadFault.TooLong) ↔
            (IsTrue self.old.refuses ⊎ (MAX_OCTETS < self.old.size + length piece.now)) }
        ensures for_good { OnErr result (self.new ≡ record self.old { refuses = true }) }
    {
        if self.refuses || piece.len() as u64 > MAX_OCTETS - self.size {
            self.refuses = true;
            return Err(HeadFault::TooLong);
        }
        if self.kept.len() as u64 == self.size {
            return Ok(header_part(self.kept.as_slice(), piece));
        }
        Ok(HeaderPart::Front(0))
    }

    /// Takes the next piece, which adds `part` to the header. The one error is out of memory, and the buffer is then
    /// unchanged.
    pub(crate) fn add(&mut self, piece: &[u8], part: HeaderPart) -> Result<(), AllocError>
        requires part { IsOfPiece piece.now part }
        requires room { self.old.size + length piece.now ≤ MAX_OCTETS }
        ensures ok { OnOk result (self.new ≡ record self.old {
          kept = with_part self.old.kept piece.now part;
          size = self.old.size + length piece.now;
        }) }
        ensures err { OnErr result (self.new ≡ self.old) }
    {
        match part {
            HeaderPart::LessCr => {
                let _ = self.kept.pop();
            }
            HeaderPart::Front(len) => {
                keep(&mut self.kept, &piece[..len])?;
            }
        }
        self.size += piece.len() as u64;
        Ok(())
    }

    /// The octets of the header so far. Refuses with `TooLong` (1) exactly where a `feed` did.
    pub fn octets(&self) -> Result<&[u8], HeadFault>
        ensures octets { IfOk result (λ octets. octets.now ≡ self.now.kept) }
        ensures within { IfOk result (λ octets. length octets.now ≤ MAX_OCTETS) }
        ensures too_long { IsErrOf result HeadFault.TooLong ↔ IsTrue self.now.refuses }
        ensures no_other { result ≡ Err HeadFault.NoMemory → ⊥ }
    {
        if self.refuses {
            return Err(HeadFault::TooLong);
        }
        Ok(self.kept.as_slice())
    }

    /// How many octets of the message were fed, those of its body included.
    pub fn size(&self) -> u64
        ensures { result ≡ self.now.size }
    {
        self.size
    }

    /// The octets of the header, in the vector that kept them.
    pub(crate) fn into_octets(self) -> Vec<u8>
        ensures octets { result.items ≡ self.kept }
        ensures within { length result.items ≤ MAX_OCTETS }
    {
        self.kept
    }
}

/// Appends octets. The capacity is then at most a quarter above the length, or what it was before.
fn keep(kept: &mut Vec<u8>, octets: &[u8]) -> Result<(), AllocError>
    ensures ok { OnOk result (kept.new.items ≡ kept.old.items ++ octets.now) }
    ensures err { OnErr result (kept.new.items ≡ kept.old.items) }
{
    if kept.capacity() - kept.len() < octets.len() {
        kept.reserve_exact(octets.len() + kept.len() / 4)?;
    }
    kept.extend_from_slice(octets)
}
