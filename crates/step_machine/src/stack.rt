//! Stacks.
use std::alloc::{AllocError, Global};
use std::marker::Model;
use vx_base::ListOf;

/// A stack: contracts see its elements with the last one first.
#[derive(Debug, Drop)]
pub struct Stack<T> {
    items: Vec<T>,
}

impl<T> Model for Stack<T> {
    ghost use Rattle.std.specs.Prelude.{List, reverse};

    ghost Value = { List T };

    ghost view = { λ s. reverse s.items.items };
}

impl<T: Drop> Stack<T> {
    ghost use Rattle.std.specs.Prelude.{◌≡◌, [], ◌∷◌, OnOk, MatchOption};

    /// A stack of nothing.
    pub fn new(alloc: Global) -> Stack<T>
        ensures { result ≡ [] }
    {
        Stack {
            items: Vec::new(alloc),
        }
    }

    /// One more element on top.
    pub fn push(&mut self, item: T) -> Result<(), AllocError>
        ensures { OnOk result (self.new ≡ item ∷ self.old) }
    {
        self.items.push(item)?;
        Ok(())
    }

    /// Takes the element on top, where there is one.
    pub fn pop(&mut self) -> Option<T>
        ensures { MatchOption result ((self.old ≡ []) × (self.new ≡ [])) (λ item. self.old ≡ item ∷ self.new) }
    {
        self.items.pop()
    }
}

impl Stack<u64> {
    ghost use Rattle.std.specs.Prelude.{◌≡◌, IfOk, reverse};

    /// The numbers from the lowest to the top.
    pub fn to_list(&self, alloc: Global) -> Result<ListOf<u64>, AllocError>
        ensures { IfOk result (λ list. list ≡ reverse self.now) }
    {
        let items = self.items.iter().copied().collect(alloc)?;
        Ok(ListOf { items })
    }
}
