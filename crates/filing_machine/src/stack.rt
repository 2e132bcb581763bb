//! A stack that allocates its memory only when it is made.

ghost use Rattle.std.specs.Prelude.{◌≡◌, ◌≤◌, ◌<◌, List, [], ◌∷◌, length, reverse, slice_get, option_copied, IfOk, MatchOption, vec_capacity};
ghost use Rattle.filing_machine.specs.declared.state.Item.{Item as ItemType};
ghost use Rattle.filing_machine.specs.Items.{HasTruth, HasFields, HasCount};

use crate::places::FieldPlaces;
use crate::state::Item;
use std::alloc::{AllocError, Global};
use std::marker::Model;

/// A stack with room for 32 items. Contracts see it as the list of its items, the topmost first.
#[derive(Drop)]
pub struct Stack {
    items: Vec<Item>,
}

impl Model for Stack {
    ghost Value = { List ItemType };

    ghost view = { λ s. reverse s.items.items };

    ghost invariant = { λ s. 32 ≤ vec_capacity s.items };
}

impl Stack {
    /// An empty stack. The only error is a refused allocation.
    pub fn new(alloc: Global) -> Result<Stack, AllocError>
        ensures { IfOk result (λ s. s ≡ []) }
    {
        Ok(Stack {
            items: Vec::with_capacity(alloc, 32)?,
        })
    }

    /// Pushes an item. The stack must have fewer than 32.
    pub fn push(&mut self, item: Item)
        requires { length self.old < 32 }
        ensures { self.new ≡ item ∷ self.old }
    {
        if self.items.push(item).is_err() {
            unreachable!()
        }
    }

    /// Pops the item on the top; none where the stack is empty.
    pub fn pop(&mut self) -> Option<Item>
        ensures { MatchOption result (self.old ≡ []) (λ item. self.old ≡ item ∷ self.new) }
    {
        self.items.pop()
    }

    /// The item on the top; none where the stack is empty.
    pub fn top(&self) -> Option<&Item>
        ensures { option_copied result ≡ slice_get self.now 0 }
    {
        self.items.as_slice().last()
    }

    /// Pops the truth value on the top, which must be there.
    pub fn pop_truth(&mut self) -> bool
        requires { HasTruth self.old }
        ensures { self.old ≡ Item.Truth result ∷ self.new }
    {
        let Some(Item::Truth(truth)) = self.pop() else {
            unreachable!()
        };
        truth
    }

    /// Pops the list of fields on the top, which must be there.
    pub fn pop_fields(&mut self) -> FieldPlaces
        requires { HasFields self.old }
        ensures { self.old ≡ Item.Fields result ∷ self.new }
    {
        let Some(Item::Fields(fields)) = self.pop() else {
            unreachable!()
        };
        fields
    }

    /// Pops the number on the top, which must be there.
    pub fn pop_count(&mut self) -> u64
        requires { HasCount self.old }
        ensures { self.old ≡ Item.Count result ∷ self.new }
    {
        let Some(Item::Count(count)) = self.pop() else {
            unreachable!()
        };
        count
    }
}
