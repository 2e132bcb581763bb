//! The texts that operations name.

ghost use Rattle.std.specs.Prelude.{◌≡◌, ◌+◌, ◌<◌, ◌≤◌, ◌^◌, ℕ, List, [], length, All, Some, IfOk, IfErr, OnOk, slice_get};
ghost use Rattle.filing_gen.specs.Pools.{IsAmong, AreTexts, Admits, IsOnce, octets_of, texts_in};

use std::alloc::{AllocError, Global};
use std::collections::BTreeMap;
use std::marker::Model;

/// Texts of at most 65,535 octets, each once, with places in the order in which they were added. Contracts see the
/// texts, each with its place. A look-up takes time logarithmic in the number of texts, and the octets of each text are
/// stored once.
#[derive(Drop)]
pub struct TextPool {
    alloc: Global,
    places: BTreeMap<Vec<u8>, u16>,
}

impl Model for TextPool {
    ghost use Rattle.std.specs.Prelude.{ℕ, List};

    ghost Value = { List (List ℕ × ℕ) };

    ghost use Rattle.filing_gen.specs.Pools.{texts_in, AreTexts};

    ghost view = { λ p. texts_in p.places.entries };

    ghost invariant = { λ p. AreTexts (texts_in p.places.entries) };
}

impl TextPool {
    /// The empty pool; it takes no memory.
    pub fn new(alloc: Global) -> TextPool
        ensures { result ≡ [] }
    {
        TextPool {
            alloc,
            places: BTreeMap::new(alloc),
        }
    }

    /// The place of a text, which is added where it is new. The only error is a refused allocation; none is asked for
    /// where the text is there.
    pub fn place(&mut self, text: &[u8]) -> Result<u16, AllocError>
        requires room { length self.old < 2 ^ 16 }
        requires short { length text.now < 2 ^ 16 }
        ensures there { IfOk result (λ b. IsAmong (text.now, b) self.new) }
        ensures admits { OnOk result (Admits self.old self.new) }
        ensures modest { IfErr result (λ _. (b : ℕ) → IsAmong (text.now, b) self.old → ⊥) }
    {
        if let Some(place) = self.places.get(text).copied() {
            return Ok(place);
        }
        let place = self.places.len() as u16;
        let text = Vec::from_slice(self.alloc, text)?;
        self.places.insert(text, place)?;
        Ok(place)
    }

    /// The texts in the order of their places. No octet is copied. The only error is a refused allocation.
    pub fn into_texts(self) -> Result<Vec<Vec<u8>>, AllocError>
        ensures places { IfOk result (λ v. (t : List ℕ) (b : ℕ) → IsAmong (t, b) self →
            slice_get (octets_of v.items) b ≡ Some t) }
        ensures once { IfOk result (λ v. IsOnce (octets_of v.items)) }
        ensures count { IfOk result (λ v. length v.items ≡ length self) }
        ensures short { IfOk result (λ v. All (λ t. length t < 2 ^ 16) (octets_of v.items)) }
    {
        by_place(self.alloc, self.places)
    }
}

/// The texts of a map in the order of their places.
fn by_place(alloc: Global, places: BTreeMap<Vec<u8>, u16>) -> Result<Vec<Vec<u8>>, AllocError>
    requires { AreTexts (texts_in places.entries) }
    ensures places { IfOk result (λ v. (t : List ℕ) (b : ℕ)
        → IsAmong (t, b) (texts_in places.entries) → slice_get (octets_of v.items) b ≡ Some t) }
    ensures once { IfOk result (λ v. IsOnce (octets_of v.items)) }
    ensures count { IfOk result (λ v. length v.items ≡ length (texts_in places.entries)) }
    ensures short { IfOk result (λ v. All (λ t. length t < 2 ^ 16) (octets_of v.items)) }
{
    let mut texts = no_texts(alloc, places.len())?;
    for (text, place) in places {
        texts[place as usize] = text;
    }
    Ok(texts)
}

/// This number of empty texts.
fn no_texts(alloc: Global, count: usize) -> Result<Vec<Vec<u8>>, AllocError>
    ensures { IfOk result (λ v. length v.items ≡ count) }
{
    let mut texts = Vec::with_capacity(alloc, count)?;
    for _place in 0..count {
        texts.push(Vec::new(alloc))?;
    }
    Ok(texts)
}
