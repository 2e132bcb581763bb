//! What was told of scripts before.

use std::alloc::{AllocError, Global};
use std::collections::BTreeMap;

/// The greatest number of classes for which the one that was meant is looked for.
const MAX_GUESSES: usize = 20;

/// What was told of scripts before.
pub struct Told {
    alloc: Global,
    /// The paths of the scripts that were judged.
    judged: BTreeMap<Vec<u8>, ()>,
    /// Warnings, in words that are the same from whichever script they are found.
    warnings: BTreeMap<Vec<u8>, ()>,
    guesses: usize,
}

impl Drop for Told {
    fn drop(self) {
        let Told {
            alloc: _,
            judged: _,
            warnings: _,
            guesses: _,
        } = self;
    }
}

/// Adds octets; false where they are there.
fn add(alloc: Global, set: &mut BTreeMap<Vec<u8>, ()>, octets: &[u8]) -> Result<bool, AllocError> {
    if set.get(octets).is_some() {
        return Ok(false);
    }
    set.insert(Vec::from_slice(alloc, octets)?, ())?;
    Ok(true)
}

impl Told {
    /// Nothing was told.
    pub fn new(alloc: Global) -> Told {
        Told {
            alloc,
            judged: BTreeMap::new(alloc),
            warnings: BTreeMap::new(alloc),
            guesses: 0,
        }
    }

    /// Whether the script at a path was not judged before; it counts as judged from now on.
    pub(crate) fn is_unjudged(&mut self, path: &str) -> Result<bool, AllocError> {
        add(self.alloc, &mut self.judged, path.as_bytes())
    }

    /// Whether a warning was not told before; it counts as told from now on.
    pub(crate) fn is_new(&mut self, warning: &[u8]) -> Result<bool, AllocError> {
        add(self.alloc, &mut self.warnings, warning)
    }

    /// Whether one more class may be looked for.
    pub(crate) fn may_guess(&mut self) -> bool {
        self.guesses = self.guesses.saturating_add(1);
        self.guesses <= MAX_GUESSES
    }
}
