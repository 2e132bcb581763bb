//! Octets that a token or a tree owns.

ghost use Rattle.std.specs.Prelude.{◌≡◌, ◌≤◌, [], length, IfOk};

use std::alloc::{AllocError, Global};
use std::marker::Model;

/// Up to this many octets are stored in the text itself; more are in a boxed vector.
const FEW: usize = 14;

/// How the octets of a text are stored.
#[derive(Drop)]
enum Octets {
    /// The length, and an array that begins with the octets.
    Few(u8, [u8; 14]),
    Many(Box<Vec<u8>>),
}

/// The octets of a name or of a string's value. Up to 14 octets need no allocation. Contracts see a list of octets.
#[derive(Drop)]
pub struct Text {
    octets: Octets,
}

impl Model for Text {
    ghost use Rattle.std.specs.Prelude.{ℕ, List};

    ghost Value = { List ℕ };

    ghost use Rattle.sieve_syntax.specs.TextOctets.{octets_in, IsWithin};

    ghost view = { λ t. octets_in t.octets };

    ghost invariant = { λ t. IsWithin t.octets };
}

/// A text of at most 14 octets, stored in place.
fn few(octets: &[u8]) -> Text
    requires { length octets.now ≤ 14 }
    ensures { result ≡ octets.now }
{
    let mut kept = [0; FEW];
    kept[..octets.len()].copy_from_slice(octets);
    Text {
        octets: Octets::Few(octets.len() as u8, kept),
    }
}

impl Text {
    /// A text with a copy of these octets. Fails only if memory runs out.
    pub fn from_slice(alloc: Global, octets: &[u8]) -> Result<Text, AllocError>
        ensures { IfOk result (λ t. t ≡ octets.now) }
    {
        if octets.len() <= FEW {
            return Ok(few(octets));
        }
        let octets = Vec::from_slice(alloc, octets)?;
        Ok(Text {
            octets: Octets::Many(Box::new(alloc, octets)?),
        })
    }

    /// A text of these octets. Fails only if memory runs out.
    pub fn from_vec(alloc: Global, octets: Vec<u8>) -> Result<Text, AllocError>
        ensures { IfOk result (λ t. t ≡ octets.items) }
    {
        if octets.len() <= FEW {
            return Ok(few(octets.as_slice()));
        }
        Ok(Text {
            octets: Octets::Many(Box::new(alloc, octets)?),
        })
    }

    /// The octets of the text, in order.
    pub fn as_slice(&self) -> &[u8]
        ensures { result.now ≡ self.now }
    {
        match &self.octets {
            Octets::Few(length, octets) => &octets[..usize::from(*length)],
            Octets::Many(octets) => octets.as_slice(),
        }
    }

    /// A copy of the text. Fails only if memory runs out.
    pub fn copy(&self, alloc: Global) -> Result<Text, AllocError>
        ensures { IfOk result (λ t. t ≡ self.now) }
    {
        Text::from_slice(alloc, self.as_slice())
    }
}
