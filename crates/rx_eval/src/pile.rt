ghost use Rattle.std.specs.Prelude.{◌≡◌, [], ◌∷◌, reverse, IfOk, OnOk, MatchOption};

use rx_tree::OutOfMemory;
use sqlite_items::Items;
use std::alloc::{AllocError, Global};
use std::marker::Model;

/// Values on a stack, seen with the last one first.
#[derive(Drop)]
pub struct Pile<T> {
    items: Vec<T>,
}

impl<T> Model for Pile<T> {
    ghost use Rattle.std.specs.Prelude.{List, reverse};
    ghost use Rattle.std.specs.Coded.{coded_list};

    ghost Value = { List T };

    ghost coded = { coded_list T.code };

    ghost view = { λ p. reverse p.items.items };
}

impl<T> Pile<T> {
    pub fn new(alloc: Global) -> Pile<T>
        ensures { result ≡ [] }
    {
        Pile {
            items: Vec::new(alloc),
        }
    }

    pub fn from_vec(items: Vec<T>) -> Pile<T>
        ensures { result ≡ reverse items.items }
    {
        Pile { items }
    }

    /// The items, the first one first.
    pub fn into_items(self) -> Items<T>
        ensures { result ≡ reverse self }
    {
        let Pile { items } = self;
        Items::from_vec(items)
    }

    /// The items in the order in which they are seen.
    pub fn turned(self) -> Items<T>
        ensures { result ≡ self }
    {
        let Pile { mut items } = self;
        items.reverse();
        Items::from_vec(items)
    }

    pub fn pop(&mut self) -> Option<T>
        ensures { MatchOption result ((self.old ≡ []) × (self.new ≡ [])) (λ last. self.old ≡ last ∷ self.new) }
    {
        self.items.pop()
    }
}

impl<T: Drop> Pile<T> {
    pub fn push(&mut self, item: T) -> Result<(), OutOfMemory>
        ensures { OnOk result (self.new ≡ item ∷ self.old) }
    {
        self.items.push(item).map_err(AllocError::from)?;
        Ok(())
    }
}
