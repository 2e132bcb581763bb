//! Sets of class paths.

ghost use Rattle.std.specs.Prelude.{◌≡◌, [], ◌≤◌, length, insert, IfNone, IfSome, IfOk, OnOk, OnErr};
ghost use Rattle.class_paths.specs.Paths.{insert_path, IsIncreasing};

use sieve_syntax::Text;
use std::alloc::{AllocError, Global};
use std::marker::Model;

/// A set of class paths. Contracts see the list of its paths in byte order, each once.
#[derive(Drop)]
pub struct Paths {
    items: Vec<Text>,
}

impl Model for Paths {
    ghost use Rattle.std.specs.Prelude.{ℕ, List};
    ghost use Rattle.class_paths.specs.Paths.{IsIncreasing};

    ghost Value = { List (List ℕ) };

    ghost view = { λ p. p.items.items };

    ghost invariant = { λ p. IsIncreasing p.items.items };
}

/// The place where a missing path belongs in byte order; none where the set has the path. It is a binary search:
/// doubling the paths costs one comparison more.
fn missing_place(items: &[Text], path: &[u8]) -> Option<usize>
    requires { IsIncreasing items.now }
    ensures there { IfNone result (insert_path path.now items.now ≡ items.now) }
    ensures missing { IfSome result (λ at. (at ≤ length items.now) ×
        (insert_path path.now items.now ≡ insert items.now at path.now)) }
{
    match items.binary_search_by(|item| item.as_slice().cmp(path)) {
        Ok(_) => None,
        Err(at) => Some(at),
    }
}

fn copies(alloc: Global, items: &[Text]) -> Result<Vec<Text>, AllocError>
    ensures { IfOk result (λ v. v.items ≡ items.now) }
{
    let mut copied = Vec::with_capacity(alloc, items.len())?;
    for item in items {
        copied.push(item.copy(alloc)?)?;
    }
    Ok(copied)
}

impl Paths {
    /// The empty set; needs no allocation.
    pub fn new(alloc: Global) -> Paths
        ensures { result ≡ [] }
    {
        Paths {
            items: Vec::new(alloc),
        }
    }

    /// Adds a path, unless the set has it. Fails only if memory runs out, and the set is then unchanged.
    pub fn insert(&mut self, alloc: Global, path: &[u8]) -> Result<(), AllocError>
        ensures ok { OnOk result (self.new ≡ insert_path path.now self.old) }
        ensures err { OnErr result (self.new ≡ self.old) }
    {
        let Some(at) = missing_place(self.items.as_slice(), path) else {
            return Ok(());
        };
        let path = Text::from_slice(alloc, path)?;
        self.items.insert(at, path)?;
        Ok(())
    }

    /// A copy of the set. Fails only if memory runs out. Time and memory are linear in the octets of the paths.
    pub fn copy(&self, alloc: Global) -> Result<Paths, AllocError>
        ensures { IfOk result (λ p. p ≡ self.now) }
    {
        Ok(Paths {
            items: copies(alloc, self.items.as_slice())?,
        })
    }

    /// The paths in byte order, each once.
    pub fn as_slice(&self) -> &[Text]
        ensures { result.now ≡ self.now }
    {
        self.items.as_slice()
    }
}
