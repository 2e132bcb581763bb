//! A source and a sink over memory, for tests. They know their octets. They can be set to move few octets at once, and
//! to meet trouble at a place.

ghost use Rattle.std.specs.Prelude.{◌≡◌, ◌<◌, ℕ, [], IfOk, max};
ghost use Rattle.session_protocol.specs.Memory.{left_of, written_of};
ghost use Rattle.session_protocol.specs.Streams.{Counts, CountsInARow, fails_to_write, is_interrupted};

use crate::stream::{Sink, Source, Trouble};
use crate::tally::Tally;
use std::alloc::Global;

/// A source over octets in memory.
#[derive(Drop)]
pub struct MemorySource<'a> {
    /// What is left.
    rest: &'a [u8],
    /// How many octets one read gives at most.
    piece: usize,
    /// The trouble to be met, how many octets are read before it, and how often it is then met.
    trouble: Trouble,
    before: usize,
    times: u64,
    tally: Tally,
    ends: u64,
}

impl<'a> MemorySource<'a> {
    /// A source that gives these octets and meets no trouble.
    pub fn new(octets: &'a [u8]) -> MemorySource<'a>
        ensures { left_of result ≡ octets.now }
    {
        MemorySource {
            rest: octets,
            piece: usize::MAX,
            trouble: Trouble::Failed,
            before: 0,
            times: 0,
            tally: Tally::new(),
            ends: 0,
        }
    }

    /// The same source with at most `piece` octets a read; 0 counts as 1.
    pub fn in_pieces(self, piece: usize) -> MemorySource<'a>
        ensures { left_of result ≡ left_of self.entry }
    {
        MemorySource { piece, ..self }
    }

    /// The same source with a trouble that is met `times` times in a row after `before` octets.
    pub fn with_trouble(self, trouble: Trouble, before: usize, times: u64) -> MemorySource<'a>
        ensures { left_of result ≡ left_of self.entry }
    {
        MemorySource {
            trouble,
            before,
            times,
            ..self
        }
    }

    /// The octets that are left.
    pub fn as_slice(&self) -> &[u8]
        ensures { result.now ≡ left_of self.now }
    {
        &self.rest[..]
    }
}

impl Source for MemorySource<'_> {
    ghost use Rattle.std.specs.Prelude.{ℕ, List};
    ghost use Rattle.session_protocol.specs.Memory.{ends_interrupted, left_of};

    ghost tells = { Unit {0} };

    ghost left = { left_of };

    ghost troubles = { λ s. s.tally };

    ghost ends = { λ s. s.ends };

    ghost was_interrupted = { λ s. ends_interrupted s.tally };

    fn read(&mut self, room: &mut [u8]) -> Result<usize, Trouble> {
        let mut count = room.len().min(self.rest.len()).min(self.piece.max(1));
        if self.times > 0 {
            if self.before == 0 {
                self.times -= 1;
                return Err(self.tally.count(self.trouble));
            }
            count = count.min(self.before);
            self.before -= count;
        }
        if count == 0 && !room.is_empty() {
            self.ends = self.ends.saturating_add(1);
        }
        let (front, rest) = self.rest.split_at(count);
        room[..count].copy_from_slice(front);
        self.rest = rest;
        Ok(self.tally.count_moved(count))
    }
}

/// What a write to memory can be set to meet.
#[derive(Clone, Copy)]
pub enum Hitch {
    /// It is interrupted.
    Interrupted,
    /// It fails.
    Failed,
    /// It takes no octet.
    Idle,
}

/// A sink that keeps what it takes in memory. Where there is no memory for it, a write fails.
#[derive(Drop)]
pub struct MemorySink {
    written: Vec<u8>,
    /// How many octets one write takes at most.
    piece: usize,
    /// The hitch to be met, how many octets are taken before it, and how often it is then met.
    hitch: Hitch,
    before: usize,
    times: u64,
    tally: Tally,
}

impl MemorySink {
    /// A sink that has taken nothing, and meets no hitch.
    pub fn new(alloc: Global) -> MemorySink
        ensures { written_of result ≡ [] }
    {
        MemorySink {
            written: Vec::new(alloc),
            piece: usize::MAX,
            hitch: Hitch::Failed,
            before: 0,
            times: 0,
            tally: Tally::new(),
        }
    }

    /// The same sink with at most `piece` octets a write; 0 counts as 1.
    pub fn in_pieces(self, piece: usize) -> MemorySink
        ensures { written_of result ≡ written_of self }
    {
        MemorySink { piece, ..self }
    }

    /// The same sink with a hitch that is met `times` times in a row after `before` octets.
    pub fn with_hitch(self, hitch: Hitch, before: usize, times: u64) -> MemorySink
        ensures { written_of result ≡ written_of self }
    {
        MemorySink {
            hitch,
            before,
            times,
            ..self
        }
    }

    fn meet(&mut self, hitch: Hitch) -> Result<usize, Trouble>
        ensures written { written_of self.new ≡ written_of self.old }
        ensures count { IfOk result (λ n. n ≡ 0) }
        ensures failures { (size : ℕ) → 0 < size →
            Counts (fails_to_write size result) self.old.tally.failures self.new.tally.failures }
        ensures interruptions { CountsInARow
            (is_interrupted result) self.old.tally.interruptions self.new.tally.interruptions }
        ensures most { self.new.tally.most_interruptions ≡
            max self.old.tally.most_interruptions self.new.tally.interruptions }
        ensures all { Counts (is_interrupted result) self.old.tally.all_interruptions
            self.new.tally.all_interruptions }
    {
        match hitch {
            Hitch::Interrupted => Err(self.tally.count(Trouble::Interrupted)),
            Hitch::Failed => Err(self.tally.count(Trouble::Failed)),
            Hitch::Idle => {
                let _ = self.tally.count(Trouble::Failed);
                Ok(0)
            }
        }
    }

    /// The octets that were taken.
    pub fn as_slice(&self) -> &[u8]
        ensures { result.now ≡ written_of self.now }
    {
        self.written.as_slice()
    }
}

impl Sink for MemorySink {
    ghost use Rattle.std.specs.Prelude.{ℕ, List};
    ghost use Rattle.session_protocol.specs.Memory.{ends_interrupted, written_of};

    ghost tells = { Unit {0} };

    ghost written = { written_of };

    ghost troubles = { λ s. s.tally };

    ghost was_interrupted = { λ s. ends_interrupted s.tally };

    fn write(&mut self, octets: &[u8]) -> Result<usize, Trouble> {
        let mut count = octets.len().min(self.piece.max(1));
        if self.times > 0 && !octets.is_empty() {
            if self.before == 0 {
                self.times -= 1;
                return self.meet(self.hitch);
            }
            count = count.min(self.before);
            self.before -= count;
        }
        if self.written.extend_from_slice(&octets[..count]).is_err() {
            return Err(self.tally.count(Trouble::Failed));
        }
        Ok(self.tally.count_moved(count))
    }
}
