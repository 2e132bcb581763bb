//! Sources and sinks of a session's octets.
//!
//! Nothing is known of the octets of a terminal, a file or a pipe. So each type that implements a trait decides whether
//! it claims to know its octets (`tells`). Every type can count failures, interruptions, and reads that met the end of
//! the input. The program reads from the `Input` of the module `input`, and writes to the `Output` of `output`.

ghost use Rattle.std.specs.Prelude.{◌≡◌, ℕ, Bool, List, ◌≤◌, ◌++◌, [], length, take, drop, IfOk, true};
ghost use Rattle.session_protocol.specs.Streams.{Counts, CountsCall, tells_end, fails_to_read, fails_to_write, is_interrupted, transfer_length, TellsKind};
ghost use Rattle.session_protocol.specs.declared.tally.Tally.{Tally};

/// Why a call moved no octet.
#[derive(Clone, Copy)]
pub enum Trouble {
    /// The call was interrupted, and may be made again.
    Interrupted,
    /// The call failed.
    Failed,
}

/// A source of octets.
pub trait Source {
    /// Holds where the type knows its octets. Where it does not hold, nothing is claimed of them.
    ghost tells: { Type 0 };

    /// The octets that are left.
    ghost left: { Self → List ℕ };

    /// How many reads failed, and how many were interrupted.
    ghost troubles: { Self → Tally };

    /// How many reads met the end of the input. The count stays at its greatest value, 2^64 - 1.
    ghost ends: { Self → ℕ };

    /// Whether the last error by which a read met trouble is an interruption, by its kind.
    ghost was_interrupted: { Self → Bool };

    /// Reads octets into the front of `room`, and answers how many. With room for one octet or more, 0 means the end of
    /// the input, which is no trouble.
    fn read(&mut self, room: &mut [u8]) -> Result<usize, Trouble>
        ensures within { IfOk result (λ n. n ≤ length room.old) }
        ensures octets { tells → IfOk result
            (λ n. (n ≤ length (left self.old)) × (take n room.new ≡ take n (left self.old))) }
        ensures left { tells → left self.new ≡ drop (transfer_length result) (left self.old) }
        ensures end { tells → tells_end (length room.old) result ≡ true → left self.old ≡ [] }
        ensures counted { CountsCall (fails_to_read result) (is_interrupted result)
            (troubles self.old) (troubles self.new) }
        ensures ends { Counts (tells_end (length room.old) result)
            (ends self.old) (ends self.new) }
        ensures kind { TellsKind (was_interrupted self.new) result };
}

/// A sink of octets.
pub trait Sink {
    /// Holds where the type knows its octets. Where it does not hold, nothing is claimed of them.
    ghost tells: { Type 0 };

    /// The octets that were taken. None of them is held back.
    ghost written: { Self → List ℕ };

    /// How many writes failed, and how many were interrupted. One that took no octet of one or more has failed.
    ghost troubles: { Self → Tally };

    /// Whether the last error by which a write met trouble is an interruption, by its kind.
    ghost was_interrupted: { Self → Bool };

    /// Takes octets from the front of `octets`, and answers how many.
    fn write(&mut self, octets: &[u8]) -> Result<usize, Trouble>
        ensures within { IfOk result (λ n. n ≤ length octets.now) }
        ensures written { tells
            → written self.new ≡ written self.old ++ take (transfer_length result) octets.now }
        ensures counted { CountsCall (fails_to_write (length octets.now) result)
            (is_interrupted result) (troubles self.old) (troubles self.new) }
        ensures kind { TellsKind (was_interrupted self.new) result };
}

/// A read that met trouble.
#[derive(Clone, Copy)]
pub struct ReadFault;

/// A write that met trouble.
#[derive(Clone, Copy)]
pub struct WriteFault;
