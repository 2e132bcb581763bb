//! The field names that a test has named so far.

ghost use Rattle.std.specs.Prelude.{◌≡◌, ℕ, List, [], not, ◌||◌, IfOk, OnOk};
ghost use Rattle.sieve_meaning.specs.Words.{same_word};
ghost use Rattle.filing_gen.specs.Names.{has_name};

use std::alloc::{AllocError, Global};
use std::collections::BTreeSet;

/// A set of header field names, which ignore ASCII case (RFC 5228, section 2.4.2.2).
#[derive(Drop)]
pub struct FieldNames {
    alloc: Global,
    lowercase: BTreeSet<Vec<u8>>,
}

impl FieldNames {
    /// The set of one name. The only error is a refused allocation.
    pub fn of(alloc: Global, name: &[u8]) -> Result<FieldNames, AllocError>
        ensures { IfOk result
            (λ names. (m : List ℕ) → has_name names.lowercase.keys m ≡ same_word name.now m) }
    {
        let mut names = FieldNames {
            alloc,
            lowercase: BTreeSet::new(alloc),
        };
        names.insert(name)?;
        Ok(names)
    }

    /// Adds a name, and answers whether it is new. The only error is a refused allocation.
    pub fn insert(&mut self, name: &[u8]) -> Result<bool, AllocError>
        ensures added { IfOk result
            (λ added. added ≡ not (has_name self.old.lowercase.keys name.now)) }
        ensures names { OnOk result ((m : List ℕ) → has_name self.new.lowercase.keys m
            ≡ (same_word name.now m || has_name self.old.lowercase.keys m)) }
    {
        let lowercase = name.to_ascii_lowercase(self.alloc)?;
        let is_new = self.lowercase.insert(lowercase)?;
        Ok(is_new)
    }
}
