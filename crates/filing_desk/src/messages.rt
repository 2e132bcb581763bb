//! Messages that are to be captured, as payloads or in pieces.

ghost use Rattle.std.specs.Prelude.{◌≡◌, ℕ, List, ◌<◌, ◌≤◌, false, length, nat_lt, IfOk, IfErr, MatchOption};
ghost use Rattle.desk_commands.specs.Limits.{greatest_message};
ghost use Rattle.desk_commands.specs.Payloads.{IsOf};
ghost use Rattle.desk_commands.specs.declared.fault.DeskFault.TheVariants.{NoMemory};
ghost use Rattle.filing_desk.specs.Messages.{IsMessageOf, IsShortMessage, IsShortPayload, whole_message};

use desk_commands::{DeskFault, MAX_MESSAGE_OCTETS, Payload};
use std::alloc::{AllocError, Global};

/// A message that is to be captured.
#[derive(Drop)]
pub enum Message<'a> {
    /// The payload of a command.
    Whole(Payload),
    /// Pieces, one after the other, of which each may be empty.
    Pieces(&'a [&'a [u8]]),
}

/// Whether a payload has more octets than a message may have.
fn is_payload_too_long(message: &Payload) -> bool
    ensures told { (m : List ℕ) → IsOf greatest_message message.now m
        → result ≡ nat_lt greatest_message (length m) }
    ensures short { result ≡ false → IsShortPayload message.now }
{
    match message {
        Payload::Whole(octets) => octets.len() > MAX_MESSAGE_OCTETS,
        Payload::TooLong => true,
        Payload::NoMemory => false,
    }
}

/// The octets of a payload, which the caller has found not too long; 99 where there was no memory for them.
fn octets_of(message: Payload) -> Result<Vec<u8>, DeskFault>
    requires { IsShortPayload message }
    ensures octets { (m : List ℕ) → IsOf greatest_message message m
        → IfOk result (λ v. v.items ≡ m) }
    ensures within { IfOk result (λ v. length v.items ≤ greatest_message) }
    ensures refused { IfErr result (λ f. f ≡ NoMemory) }
{
    match message {
        Payload::Whole(octets) => Ok(octets),
        Payload::TooLong | Payload::NoMemory => Err(DeskFault::NoMemory),
    }
}

/// How many octets the pieces of a message have together; none where they are more than a message may have.
fn length_of(pieces: &[&[u8]]) -> Option<usize>
    ensures { MatchOption result (greatest_message < length (whole_message pieces.now))
        (λ n. (n ≡ length (whole_message pieces.now)) × (n ≤ greatest_message)) }
{
    let mut octets: usize = 0;
    for piece in pieces {
        if piece.len() > MAX_MESSAGE_OCTETS - octets {
            return None;
        }
        octets += piece.len();
    }
    Some(octets)
}

/// The octets of all pieces, for which memory is allocated once.
fn join(alloc: Global, pieces: &[&[u8]]) -> Result<Vec<u8>, AllocError>
    ensures { IfOk result (λ v. v.items ≡ whole_message pieces.now) }
{
    let length = length_of(pieces).unwrap_or(MAX_MESSAGE_OCTETS);
    let mut message = Vec::with_capacity(alloc, length)?;
    for piece in pieces {
        message.extend_from_slice(*piece)?;
    }
    Ok(message)
}

impl Message<'_> {
    /// Whether the message has more octets than a message may have. Pieces are counted, and not joined.
    pub fn is_too_long(&self) -> bool
        ensures told { (m : List ℕ) → IsMessageOf self.now m
            → result ≡ nat_lt greatest_message (length m) }
        ensures short { result ≡ false → IsShortMessage self.now }
    {
        match self {
            Message::Whole(payload) => is_payload_too_long(payload),
            Message::Pieces(pieces) => length_of(*pieces).is_none(),
        }
    }

    /// The octets of the message, which the caller has found not too long; pieces are joined. 99 where there was no
    /// memory for them.
    pub fn octets(self, alloc: Global) -> Result<Vec<u8>, DeskFault>
        requires { IsShortMessage self }
        ensures octets { (m : List ℕ) → IsMessageOf self.entry m
            → IfOk result (λ v. v.items ≡ m) }
        ensures within { IfOk result (λ v. length v.items ≤ greatest_message) }
        ensures refused { IfErr result (λ f. f ≡ NoMemory) }
    {
        match self {
            Message::Whole(payload) => octets_of(payload),
            Message::Pieces(pieces) => match join(alloc, pieces) {
                Ok(message) => Ok(message),
                Err(_) => Err(DeskFault::NoMemory),
            },
        }
    }
}
