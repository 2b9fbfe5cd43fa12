// Arrays.
ghost use Rattle.std.specs.Prelude.{◌≡◌, ◌<◌, ◌≤◌, [], length, OnErr, OnOk};
ghost use Rattle.std.specs.Option.{option_copied};
ghost use Rattle.rx_heap.specs.Arrays.{item_count, item_in, most_places, with_item, with_size, without_item};

use indexmap::IndexMap;
use rx_tree::{OutOfMemory, Value};
use std::alloc::Global;
use std::marker::Model;

/// An Array's places, from 0 here. Contracts see the list of them, where an empty place has no value.
///
/// Only the items are kept, so that a place far behind the others takes no more memory than any, and each call takes a time
/// that doesn't grow with the size.
pub struct Array {
    // By place.
    items: IndexMap<u32, Value>,
    size: u32,
}

impl Drop for Array {
    fn drop(self) {
        let Array { items: _, size: _ } = self;
    }
}

impl Model for Array {
    ghost use Rattle.std.specs.Prelude.{List, Option, ◌≤◌};
    ghost use Rattle.rx_tree.specs.declared.value.Value.{Value as OfValue};
    ghost use Rattle.rx_heap.specs.Arrays.{most_places};
    ghost use Rattle.rx_heap.specs.Places.{AreWithin, IsCounted, places_of};

    ghost Value = { List (Option OfValue) };

    ghost view = { λ a. places_of a.items.entries a.size };

    ghost invariant = { λ a. AreWithin a.items.entries a.size × (IsCounted a.items.entries a.size × (a.size ≤ most_places)) };
}

impl Array {
    /// There is no place.
    pub fn new(alloc: Global) -> Array
        ensures { result ≡ [] }
    {
        Array {
            items: IndexMap::new(alloc),
            size: 0,
        }
    }

    /// How many places there are.
    pub fn size(&self) -> u32
        ensures { result ≡ length self.now }
    {
        self.size
    }

    /// How many places have an item.
    pub fn len(&self) -> u32
        ensures { result ≡ item_count self.now }
    {
        self.items.len() as u32
    }

    /// The item at a place, if there is one.
    pub fn get(&self, place: u32) -> Option<&Value>
        ensures { option_copied result ≡ item_in self.now place }
    {
        self.items.get(&place)
    }

    /// Makes so many places, where there are fewer. New ones are empty.
    pub fn resize(&mut self, size: u32)
        requires { size ≤ most_places }
        ensures { self.new ≡ with_size self.old size }
    {
        self.size = self.size.max(size);
    }

    /// Puts an item at a place, or wants memory. There are as many places then as it takes.
    pub fn put(&mut self, place: u32, item: Value) -> Result<(), OutOfMemory>
        requires { place < most_places }
        ensures ok { OnOk result (self.new ≡ with_item self.old place item) }
        ensures err { OnErr result (self.new ≡ self.old) }
    {
        self.items.insert(place, item)?;
        self.size = self.size.max(place + 1);
        Ok(())
    }

    /// Takes the item at a place away, if there is one. The place is empty then.
    pub fn remove(&mut self, place: u32) -> Option<Value>
        ensures item { result ≡ item_in self.old place }
        ensures rest { self.new ≡ without_item self.old place }
    {
        self.items.swap_remove(&place)
    }
}
