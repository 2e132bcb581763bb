//! The kinds of a stack's entries.

ghost use Rattle.std.specs.Prelude.{◌≡◌, ◌<◌, ◌≤◌, List, [], ◌∷◌, length, reverse, take, MatchOption, IsTrue, ◌↔◌, true, false};
ghost use Rattle.filing_verify.specs.declared.kind.Kind.{Kind as KindType};

use crate::kind::Kind;
use std::marker::Model;

/// The kinds of at most 33 entries, one more than a stack may have. Contracts see them as a list, the topmost first. A
/// shape owns no memory outside itself, so that a table with one for each place is one allocation.
#[derive(Drop)]
pub struct Shape {
    kinds: [Kind; 33],
    depth: u8,
}

impl Model for Shape {
    ghost Value = { List KindType };

    ghost view = { λ s. reverse (take s.depth s.kinds) };

    ghost invariant = { λ s. s.depth ≤ 33 };
}

impl Shape {
    /// The shape of the empty stack.
    pub fn new() -> Shape
        ensures { result ≡ [] }
    {
        Shape {
            kinds: [Kind::Truth; 33],
            depth: 0,
        }
    }

    /// A copy of the shape; it takes no memory.
    pub fn copy(&self) -> Shape
        ensures { result ≡ self.now }
    {
        Shape {
            kinds: self.kinds,
            depth: self.depth,
        }
    }

    /// Whether both shapes have the same kinds.
    pub fn is(&self, other: &Shape) -> bool
        ensures { IsTrue result ↔ self.now ≡ other.now }
    {
        are_same(self.entries(), other.entries())
    }

    /// The number of entries, at most 33.
    pub fn depth(&self) -> usize
        ensures { result ≡ length self.now }
    {
        self.entries().len()
    }

    /// Whether there is no entry.
    pub fn is_empty(&self) -> bool
        ensures none { result ≡ true → self.now ≡ [] }
        ensures some { result ≡ false → (top : KindType) × (rest : List KindType)
            × (self.now ≡ top ∷ rest) }
    {
        self.depth() == 0
    }

    /// The kinds of the entries that there are.
    fn entries(&self) -> &[Kind]
        ensures { reverse result.now ≡ self.now }
    {
        &self.kinds[..self.depth as usize]
    }

    /// Pushes an entry. The depth before must be below 33.
    pub fn push(&mut self, kind: Kind)
        requires { length self.old < 33 }
        ensures { self.new ≡ kind ∷ self.old }
    {
        self.kinds[self.depth as usize] = kind;
        self.depth += 1;
    }

    /// Pops the topmost entry and answers its kind; none where there is no entry.
    pub fn pop(&mut self) -> Option<Kind>
        ensures { MatchOption result (self.old ≡ []) (λ k. self.old ≡ k ∷ self.new) }
    {
        if self.depth < 1 {
            return None;
        }
        self.depth -= 1;
        Some(self.kinds[self.depth as usize])
    }
}

fn are_same(a: &[Kind], b: &[Kind]) -> bool
    ensures { IsTrue result ↔ a.now ≡ b.now }
{
    a == b
}
