//! Seals of messages.

ghost use Rattle.std.specs.Prelude.{◌≡◌, IfOk};
ghost use Rattle.record_history.specs.Replay.{seal};
ghost use Rattle.record_history.specs.Views.{seal_view};

use crate::events::Seal;
use hex::encode;
use sha2::{Digest, Sha256};
use std::alloc::{AllocError, Global};

/// The seal of a message: how many octets it has, and their SHA-256. The only refusal is no memory (99).
pub fn seal_of(alloc: Global, body: &[u8]) -> Result<Seal, AllocError>
    ensures { IfOk result (λ s. seal_view s ≡ seal body.now) }
{
    let sum = Sha256::digest(body);
    let sum = encode(alloc, sum.as_slice())?;
    Ok(Seal {
        octets: body.len() as u64,
        sum: sum.into_bytes(),
    })
}
