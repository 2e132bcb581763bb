//! The numbers that operations name.

ghost use Rattle.std.specs.Prelude.{◌≡◌, ◌+◌, ◌<◌, ◌≤◌, ◌^◌, ℕ, [], length, Some, IfOk, OnOk, slice_get};
ghost use Rattle.filing_gen.specs.Pools.{IsAmong, IsNumbered, Admits, IsOnce};

use std::alloc::{AllocError, Global};
use std::collections::BTreeMap;
use std::marker::Model;

/// Numbers, each once, with places in the order in which they were added. Contracts see the numbers, each with its
/// place. A look-up takes time logarithmic in the number of numbers.
#[derive(Drop)]
pub struct NumberPool {
    alloc: Global,
    places: BTreeMap<u64, u16>,
}

impl Model for NumberPool {
    ghost use Rattle.std.specs.Prelude.{ℕ, List};

    ghost Value = { List (ℕ × ℕ) };

    ghost use Rattle.filing_gen.specs.Pools.{IsNumbered};

    ghost view = { λ p. p.places.entries };

    ghost invariant = { λ p. IsNumbered p.places.entries };
}

impl NumberPool {
    /// The empty pool; it takes no memory.
    pub fn new(alloc: Global) -> NumberPool
        ensures { result ≡ [] }
    {
        NumberPool {
            alloc,
            places: BTreeMap::new(alloc),
        }
    }

    /// The place of a number, which is added where it is new. The only error is a refused allocation.
    pub fn place(&mut self, number: u64) -> Result<u16, AllocError>
        requires { length self.old < 2 ^ 16 }
        ensures there { IfOk result (λ b. IsAmong (number, b) self.new) }
        ensures admits { OnOk result (Admits self.old self.new) }
    {
        if let Some(place) = self.places.get(&number).copied() {
            return Ok(place);
        }
        let place = self.places.len() as u16;
        self.places.insert(number, place)?;
        Ok(place)
    }

    /// The numbers in the order of their places. The only error is a refused allocation.
    pub fn into_numbers(self) -> Result<Vec<u64>, AllocError>
        ensures places { IfOk result
            (λ v. (n b : ℕ) → IsAmong (n, b) self → slice_get v.items b ≡ Some n) }
        ensures once { IfOk result (λ v. IsOnce v.items) }
        ensures count { IfOk result (λ v. length v.items ≡ length self) }
    {
        by_place(self.alloc, self.places)
    }
}

/// The numbers of a map in the order of their places.
fn by_place(alloc: Global, places: BTreeMap<u64, u16>) -> Result<Vec<u64>, AllocError>
    requires { IsNumbered places.entries }
    ensures places { IfOk result
        (λ v. (n b : ℕ) → IsAmong (n, b) places.entries → slice_get v.items b ≡ Some n) }
    ensures once { IfOk result (λ v. IsOnce v.items) }
    ensures count { IfOk result (λ v. length v.items ≡ length places.entries) }
{
    let mut numbers = vec![in alloc; 0; places.len()]?;
    for (number, place) in places {
        numbers[place as usize] = number;
    }
    Ok(numbers)
}
