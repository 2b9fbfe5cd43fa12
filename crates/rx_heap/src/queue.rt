// Queues.
ghost use Rattle.std.specs.Prelude.{◌≡◌, [], ◌∷◌, ◌++◌, drop, length, slice_get, OnErr, OnOk};
ghost use Rattle.std.specs.Option.{option_copied};

use rx_tree::{OutOfMemory, Value};
use std::alloc::Global;
use std::collections::VecDeque;
use std::marker::Model;

/// A Queue's items. Contracts see the list of them, the front first. Each call takes a time that doesn't grow with their
/// number.
pub struct Queue {
    items: VecDeque<Value>,
}

impl Drop for Queue {
    fn drop(self) {
        let Queue { items: _ } = self;
    }
}

impl Model for Queue {
    ghost use Rattle.std.specs.Prelude.{List, ◌≤◌, length};
    ghost use Rattle.rx_tree.specs.declared.value.Value.{Value as OfValue};
    ghost use Rattle.rx_heap.specs.Counts.{most_items};

    ghost Value = { List OfValue };

    ghost view = { λ q. q.items.items };

    ghost invariant = { λ q. length q.items.items ≤ most_items };
}

impl Queue {
    /// The most items, so that their number is a `u32`.
    pub const MOST: usize = 4_294_967_295;

    /// There is no item.
    pub fn new(alloc: Global) -> Queue
        ensures { result ≡ [] }
    {
        Queue {
            items: VecDeque::new(alloc),
        }
    }

    /// How many items there are.
    pub fn len(&self) -> u32
        ensures { result ≡ length self.now }
    {
        self.items.len() as u32
    }

    /// The item at a place, from 0 at the front.
    pub fn get(&self, place: usize) -> Option<&Value>
        ensures { option_copied result ≡ slice_get self.now place }
    {
        self.items.get(place)
    }

    /// Puts an item at the end, or wants memory, as it does where there are 4,294,967,295 items.
    pub fn add(&mut self, item: Value) -> Result<(), OutOfMemory>
        ensures ok { OnOk result (self.new ≡ self.old ++ item ∷ []) }
        ensures err { OnErr result (self.new ≡ self.old) }
    {
        if self.items.len() >= Self::MOST {
            return Err(OutOfMemory);
        }
        self.items.push_back(item)?;
        Ok(())
    }

    /// Puts an item at the front, or wants memory, as it does where there are 4,294,967,295 items.
    pub fn push(&mut self, item: Value) -> Result<(), OutOfMemory>
        ensures ok { OnOk result (self.new ≡ item ∷ self.old) }
        ensures err { OnErr result (self.new ≡ self.old) }
    {
        if self.items.len() >= Self::MOST {
            return Err(OutOfMemory);
        }
        self.items.push_front(item)?;
        Ok(())
    }

    /// Takes the item at the front away, if there is one.
    pub fn pull(&mut self) -> Option<Value>
        ensures item { result ≡ slice_get self.old 0 }
        ensures rest { self.new ≡ drop 1 self.old }
    {
        self.items.pop_front()
    }
}
