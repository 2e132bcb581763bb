//! Questions on messages.

ghost use Rattle.std.specs.Prelude.{◌≡◌, ℕ, Bool, List, true, IfOk};

use std::alloc::{AllocError, Global};

/// A question on messages.
pub trait Judge {
    /// The messages to which the answer is yes.
    ghost asks: { Self → List ℕ → Bool };

    /// The answer for a message. Fails only for want of memory.
    fn judge(&self, alloc: Global, message: &[u8]) -> Result<bool, AllocError>
        ensures { IfOk result (λ b. b ≡ asks self.now message.now) };
}

/// The question to which the answer is always yes.
#[derive(Clone, Copy)]
pub struct Anything;

impl Judge for Anything {
    ghost asks = { λ _ _. true };

    fn judge(&self, _: Global, _: &[u8]) -> Result<bool, AllocError> {
        Ok(true)
    }
}
