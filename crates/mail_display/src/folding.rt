//! Texts without case.

ghost use Rattle.std.specs.Prelude.{◌≡◌, IfOk, string_bytes};
ghost use Rattle.mail_display.specs.Folding.{folded};

use caseless::default_case_fold_str;
use std::alloc::{AllocError, Global};
use unicode_normalization::to_nfd;

/// A text without case, and with each letter decomposed: two texts have the same one where they match canonically
/// without case (The Unicode Standard, section 3.13, D145).
#[tactic(auto, unfolding(crate::specs::Folding::folded))]
pub fn fold(alloc: Global, text: &str) -> Result<String, AllocError>
    ensures { IfOk result (λ t. string_bytes t ≡ folded text.now) }
{
    if text.is_ascii() {
        return text.to_ascii_lowercase(alloc);
    }
    let decomposed = to_nfd(alloc, text)?;
    let caseless = default_case_fold_str(alloc, decomposed.as_str())?;
    to_nfd(alloc, caseless.as_str())
}
