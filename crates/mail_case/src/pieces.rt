//! A message that comes in pieces.

ghost use Rattle.std.specs.Prelude.{◌≡◌, ◌+◌, ◌<◌, ◌↔◌, ◌⊎◌, ◌++◌, [], ℕ, List, length, true, false, IsTrue, IfOk, IfErr, OnOk, MatchResult};
ghost use Rattle.mail_head.specs.Pieces.{reader_of};
ghost use Rattle.mail_head.specs.declared.buffer.HeadFault.TheVariants.{TooLong};
ghost use Rattle.mail_case.specs.Message.{case_of, is_among};
ghost use Rattle.mail_case.specs.Whole.{facts_of};
ghost use Rattle.mail_case.specs.Pieces.{pieces_view};
ghost use Rattle.mail_case.specs.Views.{paths_in};

use crate::whole::{WholeCase, fields_fed};
use mail_head::{HeadFault, HeaderBuffer, MAX_OCTETS};
use std::alloc::Global;
use std::collections::BTreeSet;
use std::marker::Model;

/// A case that is fed its message piece by piece. It keeps the octets of the header and none of the body; the values
/// are decoded when the message is whole.
#[derive(Drop)]
pub struct PieceCase {
    alloc: Global,
    header: HeaderBuffer,
    paths: BTreeSet<Vec<u8>>,
}

impl Model for PieceCase {
    ghost use Rattle.mail_case.specs.Pieces.{Arrival};

    ghost Value = { Arrival };

    ghost use Rattle.mail_case.specs.Views.{paths_in};

    ghost view = { λ c. record { reader = c.header; paths = paths_in c.paths } };
}

impl PieceCase {
    /// A case that was fed nothing, with the paths that are open. It takes no memory yet.
    pub fn new(alloc: Global, paths: BTreeSet<Vec<u8>>) -> PieceCase
        ensures { result ≡ pieces_view [] (paths_in paths) }
    {
        PieceCase {
            alloc,
            header: HeaderBuffer::new(alloc),
            paths,
        }
    }

    /// Takes the next piece of the message, which may be empty. `TooLong` (1) where the message would then have more
    /// than 8,388,608 octets, and at every call after that. `NoMemory` (99) where an allocation was refused, and the
    /// case is then unchanged.
    pub fn feed(&mut self, piece: &[u8]) -> Result<(), HeadFault>
        ensures fed { (message : List ℕ) → self.old.reader ≡ reader_of message →
            OnOk result (self.new.reader ≡ reader_of (message ++ piece.now)) }
        ensures too_long { (result ≡ Err TooLong) ↔ (IsTrue self.old.reader.refuses
            ⊎ (MAX_OCTETS < self.old.reader.size + length piece.now)) }
        ensures for_good { result ≡ Err TooLong
            → self.new.reader ≡ record self.old.reader { refuses = true } }
        ensures no_memory { result ≡ Err HeadFault.NoMemory → self.new ≡ self.old }
        ensures paths { self.new.paths ≡ self.old.paths }
    {
        self.header.feed(piece)
    }

    /// The case of the message that was fed. Its fields are those of the header (RFC 5322, section 2.2), in order, each
    /// with the value of its body; each value is decoded once, here. `TooLong` (1) exactly where a `feed` answered it,
    /// and `NoMemory` (99) where an allocation was refused. Both hand the case back unchanged.
    pub fn finish(self) -> Result<WholeCase, (HeadFault, PieceCase)>
        ensures whole { (message : List ℕ) → self.reader ≡ reader_of message →
            IfOk result (λ c. facts_of c ≡ case_of message (is_among self.paths)) }
        ensures too_long { MatchResult result (λ _. self.reader.refuses ≡ false)
            (λ e. (e.0 ≡ TooLong) ↔ IsTrue self.reader.refuses) }
        ensures back { IfErr result (λ e. e.1 ≡ self) }
    {
        match fields_fed(self.alloc, &self.header) {
            Ok(fields) => {
                let PieceCase { header, paths, .. } = self;
                Ok(WholeCase::from_parts(header.size(), fields, paths))
            }
            Err(fault) => Err((fault, self)),
        }
    }
}
