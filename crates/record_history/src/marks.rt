//! Marks of the chain.

ghost use Rattle.std.specs.Prelude.{◌≡◌, IfOk, string_bytes};
ghost use Rattle.record_history.specs.Chain.{mark_after};

use hex::encode;
use sha2::{Digest, Sha256};
use std::alloc::{AllocError, Global};

/// The mark of a line after the mark of the line before it, or after an empty one: 64 hexadecimal digits.
pub fn next_mark(alloc: Global, mark: &[u8], line: &[u8]) -> Result<String, AllocError>
    ensures { IfOk result (λ s. string_bytes s ≡ mark_after mark.now line.now) }
{
    let mut hasher = Sha256::new();
    hasher.update(mark);
    hasher.update(b"\n".as_slice());
    hasher.update(line);
    hasher.update(b"\n".as_slice());
    let sum = hasher.finalize();
    encode(alloc, sum.as_slice())
}
