//! Payloads: the octets that a command brings besides its line.

ghost use Rattle.std.specs.Prelude.{ℕ, ◌≤◌, List, length, IfOk};
ghost use Rattle.desk_commands.specs.Payloads.{IsOf, IsOffered};

use crate::fault::DeskFault;

/// A payload that was read to its end.
#[derive(Drop)]
pub enum Payload {
    /// The octets of the payload.
    Whole(Vec<u8>),
    /// The payload is longer than its limit; its octets are not kept.
    TooLong,
    /// The payload is within its limit, but there was no memory for it (99).
    NoMemory,
}

impl Payload {
    /// The octets, if they are there and at most `limit`. Refuses with `too_long` where they are more than the limit,
    /// and with `NoMemory` (99) where there was no memory for them.
    pub fn octets(&self, limit: usize, too_long: DeskFault) -> Result<&[u8], DeskFault>
        ensures offered { (octets : List ℕ) → IsOf limit self.now octets
            → IsOffered limit too_long octets result }
        ensures within { IfOk result (λ octets. length octets.now ≤ limit) }
    {
        match self {
            Payload::Whole(octets) if octets.len() > limit => Err(too_long),
            Payload::Whole(octets) => Ok(octets.as_slice()),
            Payload::TooLong => Err(too_long),
            Payload::NoMemory => Err(DeskFault::NoMemory),
        }
    }
}
