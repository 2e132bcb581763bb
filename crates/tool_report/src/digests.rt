//! Checksums.

ghost use Rattle.std.specs.Prelude.{◌≡◌, IfOk, string_bytes};
ghost use Rattle.sha2.specs.Sha256.{sha256};
ghost use Rattle.hex.specs.Hex.{encode_lower};

use hex::encode;
use sha2::{Digest, Sha256};
use std::alloc::{AllocError, Global};

/// The SHA-256 of octets (FIPS 180-4), in 64 hexadecimal digits of lower case.
pub fn sha256_text(alloc: Global, octets: &[u8]) -> Result<String, AllocError>
    ensures { IfOk result (λ t. string_bytes t ≡ encode_lower (sha256 octets.now)) }
{
    let digest: [u8; 32] = Sha256::digest(octets);
    encode(alloc, &digest[..])
}
