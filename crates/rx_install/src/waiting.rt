// Classes that wait for names.
ghost use Rattle.std.specs.Prelude.{◌≡◌, ◌∷◌, ◌++◌, [], OnOk};
ghost use Rattle.rx_install.specs.Waiting.{Changes, waiters};

use indexmap::IndexMap;
use rx_tree::OutOfMemory;
use sqlite_items::Items;
use std::alloc::Global;
use std::marker::Model;
use std::mem;

/// A class that waits for a name.
#[derive(Clone, Copy)]
pub struct Waiter {
    /// The place of the class in directive order.
    pub place: usize,
    /// How many of the names that it needs are there, in front of the one that it waits for.
    pub there: usize,
}

/// The classes that wait for each name. Contracts see them as a table.
pub struct Waiting {
    alloc: Global,
    lists: IndexMap<Vec<u8>, Items<Waiter>>,
}

impl Drop for Waiting {
    fn drop(self) {
        let Waiting { alloc: _, lists: _ } = self;
    }
}

impl Model for Waiting {
    ghost use Rattle.std.specs.Prelude.{List, ℕ};
    ghost use Rattle.rx_vars.specs.Tables.{table_of};
    ghost use Rattle.rx_install.specs.declared.waiting.Waiter.{Waiter as Class};

    ghost Value = { List (List ℕ × List Class) };

    ghost view = { λ w. table_of w.lists.entries };
}

impl Waiting {
    /// Nothing is waited for.
    pub fn new(alloc: Global) -> Waiting
        ensures { result ≡ [] }
    {
        Waiting {
            alloc,
            lists: IndexMap::new(alloc),
        }
    }

    fn insert(&mut self, name: &[u8], list: Items<Waiter>) -> Result<(), OutOfMemory>
        ensures { OnOk result (Changes self.old self.new name.now list) }
    {
        let key = Vec::from_slice(self.alloc, name)?;
        self.lists.insert(key, list)?;
        Ok(())
    }

    /// Lets one more class wait for a name, or wants memory.
    pub fn add(&mut self, name: &[u8], waiter: Waiter) -> Result<(), OutOfMemory>
        ensures { OnOk result (Changes self.old self.new name.now (waiters self.old name.now ++ waiter ∷ [])) }
    {
        match self.lists.get_mut(name) {
            Some(list) => {
                list.push(waiter)?;
                Ok(())
            }
            None => {
                let mut list = Items::new(self.alloc);
                list.push(waiter)?;
                self.insert(name, list)
            }
        }
    }

    /// Takes away the classes that wait for a name.
    pub fn take(&mut self, name: &[u8]) -> Items<Waiter>
        ensures taken { result ≡ waiters self.old name.now }
        ensures rest { Changes self.old self.new name.now [] }
    {
        let none = Items::new(self.alloc);
        match self.lists.get_mut(name) {
            Some(list) => mem::replace(list, none),
            None => none,
        }
    }
}
