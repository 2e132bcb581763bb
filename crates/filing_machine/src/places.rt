//! Lists of fields.

ghost use Rattle.std.specs.Prelude.{◌≡◌, ◌+◌, ◌<◌, ◌≤◌, ◌++◌, ◌∷◌, [], length, slice_index, OnOk, OnErr};
ghost use Rattle.std.specs.Vec.{vec_capacity, vec_len};

use std::alloc::{AllocError, Global};
use std::marker::Model;

/// The first place that four octets do not hold.
const FIRST_WIDE: usize = 1 << 32;

/// Fields of a case by their places, which count from 0. Contracts see them as the list of places. A place takes four
/// octets, and eight where it, or one before it, is 2^32 or more.
#[derive(Drop)]
pub struct FieldPlaces {
    narrow: Vec<u32>,
    /// The places from the first one of 2^32 or more on.
    wide: Vec<usize>,
}

impl Model for FieldPlaces {
    ghost use Rattle.std.specs.Prelude.{ℕ, List, ◌++◌};

    ghost Value = { List ℕ };

    ghost view = { λ f. f.narrow.items ++ f.wide.items };
}

impl FieldPlaces {
    /// The empty list; it takes no memory.
    pub fn new(alloc: Global) -> FieldPlaces
        ensures { result ≡ [] }
    {
        FieldPlaces {
            narrow: Vec::new(alloc),
            wide: Vec::new(alloc),
        }
    }

    /// Adds a field at the end. The only error is a refused allocation, and the list is then unchanged.
    pub fn push(&mut self, place: usize) -> Result<(), AllocError>
        ensures ok { OnOk result (self.new ≡ self.old ++ place ∷ []) }
        ensures err { OnErr result (self.new ≡ self.old) }
    {
        if place < FIRST_WIDE && self.wide.is_empty() {
            self.narrow.push(place as u32)?;
            return Ok(());
        }
        self.wide.push(place)?;
        Ok(())
    }

    /// Adds all fields of another list at the end. The only error is a refused allocation, and the list is then
    /// unchanged.
    pub fn append(&mut self, others: &FieldPlaces) -> Result<(), AllocError>
        ensures ok { OnOk result (self.new ≡ self.old ++ others.now) }
        ensures err { OnErr result (self.new ≡ self.old) }
    {
        let (narrow, wide) = (others.narrow.as_slice(), others.wide.as_slice());
        if !self.wide.is_empty() {
            return append_wide(&mut self.wide, narrow, wide);
        }
        self.wide.reserve(wide.len())?;
        self.narrow.extend_from_slice(narrow)?;
        self.wide.extend_from_slice(wide)?;
        Ok(())
    }

    /// The number of fields.
    pub fn count(&self) -> usize
        ensures { result ≡ length self.now }
    {
        self.narrow.len() + self.wide.len()
    }

    /// The field at an index of the list, which counts from 0 and must be below `count`.
    pub fn at(&self, index: usize) -> usize
        requires { index < length self.now }
        ensures { result ≡ slice_index self.now index }
    {
        if index < self.narrow.len() {
            return self.narrow[index] as usize;
        }
        self.wide[index - self.narrow.len()]
    }
}

/// Adds the places of two lists at the end, or none of them where memory is refused.
fn append_wide(places: &mut Vec<usize>, narrow: &[u32], wide: &[usize]) -> Result<(), AllocError>
    ensures ok { OnOk result (places.new.items ≡ places.old.items ++ (narrow.now ++ wide.now)) }
    ensures err { OnErr result (places.new.items ≡ places.old.items) }
{
    places.reserve(narrow.len() + wide.len())?;
    for place in narrow {
        let Ok(()) = places.push(*place as usize) else {
            unreachable!()
        };
    }
    places.extend_from_slice(wide)?;
    Ok(())
}
