//! The places to which a run returns, in an array of fixed length.

ghost use Rattle.std.specs.Prelude.{◌≡◌, ◌<◌, ◌≤◌, ◌^◌, ℕ, List, [], ◌∷◌, length, reverse, take, MatchOption};

use std::marker::Model;

/// The places to return to, one for each call that has not returned; at most 256. Contracts see them as a list, that of
/// the last call first.
#[derive(Drop)]
pub struct Calls {
    places: [u16; 256],
    depth: u16,
}

impl Model for Calls {
    ghost Value = { List ℕ };

    ghost view = { λ c. reverse (take c.depth c.places) };

    ghost invariant = { λ c. c.depth ≤ 256 };
}

impl Calls {
    /// The empty row; it takes no memory.
    pub fn new() -> Calls
        ensures { result ≡ [] }
    {
        Calls {
            places: [0; 256],
            depth: 0,
        }
    }

    /// Adds the place to which a call returns. There must be fewer than 256.
    pub fn push(&mut self, place: u16)
        requires { length self.old < 256 }
        ensures { self.new ≡ place ∷ self.old }
    {
        self.places[self.depth as usize] = place;
        self.depth += 1;
    }

    /// Removes the place to which the last call returns, and answers it; none where no call is left.
    pub fn pop(&mut self) -> Option<u16>
        ensures { MatchOption result ((self.old ≡ []) × (self.new ≡ []))
            (λ p. self.old ≡ p ∷ self.new) }
    {
        if self.depth < 1 {
            return None;
        }
        self.depth -= 1;
        Some(self.places[self.depth as usize])
    }
}
