//! The seals that the messages of a store have, as they were read from it.

ghost use Rattle.std.specs.Prelude.{◌≡◌, ◌==◌, ℕ, None, Some, OnOk, if◌then◌else◌, is_some};
ghost use Rattle.record_history.specs.Replay.{seal as seal_of_octets};
ghost use Rattle.record_history.specs.Views.{seal_view};
ghost use Rattle.cli_history.specs.Stored.{is_stored_as, stored};

use record_history::{Seal, seal_of};
use std::alloc::{AllocError, Global};
use std::collections::BTreeMap;

/// The seals of messages as a store has them, so that each message is read once. One takes about 150 octets of memory.
#[derive(Drop)]
pub struct StoredSeals {
    /// By the numbers of messages.
    made: BTreeMap<u32, Seal>,
}

impl StoredSeals {
    /// Those of no message.
    pub fn none(alloc: Global) -> StoredSeals
        ensures { (n : ℕ) → stored result n ≡ None }
    {
        StoredSeals {
            made: BTreeMap::new(alloc),
        }
    }

    /// Makes the seal of a message of its octets. The only refusal is no memory.
    pub fn note(&mut self, alloc: Global, message: u32, body: &[u8]) -> Result<(), AllocError>
        ensures { OnOk result ((n : ℕ) → stored self.new n ≡
            (if n == message then Some (seal_of_octets body.now) else stored self.old n)) }
    {
        let seal = seal_of(alloc, body)?;
        match self.made.insert(message, seal) {
            Ok(_) => Ok(()),
            Err(_) => Err(AllocError),
        }
    }

    /// Whether the seal of a message was made.
    pub fn has(&self, message: u32) -> bool
        ensures { result ≡ is_some (stored self.now message) }
    {
        self.made.contains_key(&message)
    }

    /// Whether a message has that seal: its length and its SHA-256.
    pub fn is_sealed_by(&self, message: u32, seal: &Seal) -> bool
        ensures { result ≡ is_stored_as (seal_view seal.now) (stored self.now message) }
    {
        match self.made.get(&message) {
            Some(made) => made.octets == seal.octets && made.sum.as_slice() == seal.sum.as_slice(),
            None => false,
        }
    }
}
