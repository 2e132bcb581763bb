//! The values of strings (RFC 5228, section 2.4.2), and lists of them.

ghost use Rattle.std.specs.Prelude.{◌≡◌, ◌≤◌, ◌<◌, ◌^◌, length, IfOk, MatchOption};

use crate::text::Text;
use std::alloc::{AllocError, Global};
use std::marker::Model;

/// The greatest length of a string's value in octets.
const MAX_OCTETS: usize = 65_535;

/// The value of a string: at most 65,535 octets, for which a text of an image has room. Contracts see a list of octets.
#[derive(Drop)]
pub struct StringText {
    octets: Text,
}

impl Model for StringText {
    ghost use Rattle.std.specs.Prelude.{ℕ, List, ◌<◌, ◌^◌, length};

    ghost Value = { List ℕ };

    ghost view = { λ s. s.octets };

    ghost invariant = { λ s. length s.octets < 2 ^ 16 };
}

impl StringText {
    /// The string with these octets; none exactly where there are more than 65,535. It takes no memory.
    pub fn new(octets: Text) -> Option<StringText>
        ensures { MatchOption result (2 ^ 16 ≤ length octets)
            (λ s. (s ≡ octets) × (length octets < 2 ^ 16)) }
    {
        if octets.as_slice().len() > MAX_OCTETS {
            return None;
        }
        Some(StringText { octets })
    }

    /// The octets of the string, in order; at most 65,535.
    pub fn as_slice(&self) -> &[u8]
        ensures value { result.now ≡ self.now }
        ensures short { length result.now < 2 ^ 16 }
    {
        self.octets.as_slice()
    }
}

/// Strings in order. Contracts see a list of lists of octets.
#[derive(Drop)]
pub struct StringTexts {
    items: Box<Vec<StringText>>,
}

impl Model for StringTexts {
    ghost use Rattle.std.specs.Prelude.{ℕ, List};

    ghost Value = { List (List ℕ) };

    ghost view = { λ t. t.items.value.items };
}

impl StringTexts {
    /// These strings, in order, without spare capacity. Fails only if memory runs out.
    pub fn from_vec(alloc: Global, mut items: Vec<StringText>) -> Result<StringTexts, AllocError>
        ensures { IfOk result (λ t. t ≡ items.items) }
    {
        items.shrink_to_fit();
        Ok(StringTexts {
            items: Box::new(alloc, items)?,
        })
    }

    /// The strings, in order.
    pub fn as_slice(&self) -> &[StringText]
        ensures { result.now ≡ self.now }
    {
        self.items.as_slice()
    }
}
