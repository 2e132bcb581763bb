//! Texts as searches compare them.

ghost use Rattle.std.specs.Prelude.{◌≡◌, IfOk, chars, encode_utf8_all, string_bytes};
ghost use Rattle.mail_display.specs.Comparing.{one_space, is_blank, comparable};

use crate::folding::fold;
use std::alloc::{AllocError, Global};

/// A text with one space in place of each run of white space (The Unicode Standard, property White_Space): spaces,
/// tabs, no-break spaces and line ends among them.
fn one_space(alloc: Global, text: &str) -> Result<String, AllocError>
    ensures { IfOk result
        (λ t. string_bytes t ≡ encode_utf8_all (one_space (chars text.now))) }
{
    let mut spaced = String::with_capacity(alloc, text.len())?;
    let mut is_after_white = false;
    for c in text.chars() {
        let is_white = c.is_whitespace();
        if !is_white {
            spaced.push(c)?;
        } else if !is_after_white {
            spaced.push(' ')?;
        }
        is_after_white = is_white;
    }
    Ok(spaced)
}

/// Whether a text has nothing but white space.
pub fn is_blank(text: &str) -> bool
    ensures { result ≡ is_blank text.now }
{
    text.chars().all(|c| c.is_whitespace())
}

/// A text as it is compared: with each run of white space as one space, and then folded (`fold`).
#[tactic(auto, unfolding(crate::specs::Comparing::comparable))]
pub fn comparable(alloc: Global, text: &str) -> Result<String, AllocError>
    ensures { IfOk result (λ t. string_bytes t ≡ comparable text.now) }
{
    let spaced = one_space(alloc, text)?;
    fold(alloc, spaced.as_str())
}
