//! A stack: contracts see it as the list from its top down.

ghost use Rattle.std.specs.Prelude.{◌≡◌, [], ◌∷◌, MatchOption, OnOk};

use std::alloc::{AllocError, Global};
use std::marker::Model;
use tso_words::NoMemory;

/// A stack.
#[derive(Drop)]
pub struct Pile<T> {
    items: Vec<T>,
}

impl<T> Model for Pile<T> {
    ghost use Rattle.std.specs.Prelude.{List, reverse};
    ghost use Rattle.std.specs.Coded.{coded_list};

    ghost Value = { List T };

    ghost coded = { coded_list T.code };

    ghost view = { λ s. reverse s.items.items };
}

impl<T> Pile<T> {
    /// An empty stack.
    pub fn new(alloc: Global) -> Self
        ensures { result ≡ [] }
    {
        Pile {
            items: Vec::new(alloc),
        }
    }

    /// Takes the top off.
    pub fn pop(&mut self) -> Option<T>
        ensures { MatchOption result ((self.old ≡ []) × (self.new ≡ [])) (λ top. self.old ≡ top ∷ self.new) }
    {
        self.items.pop()
    }

    /// The top.
    pub fn top(&self) -> Option<&T>
        ensures { MatchOption result (self.now ≡ []) (λ top. (rest : _) × (self.now ≡ top.now ∷ rest)) }
    {
        self.items.last()
    }
}

impl<T: Drop> Pile<T> {
    /// Puts `top` on top.
    pub fn push(&mut self, top: T) -> Result<(), NoMemory>
        ensures { OnOk result (self.new ≡ top ∷ self.old) }
    {
        self.items.push(top).map_err(AllocError::from)?;
        Ok(())
    }
}
