// Tables of names.
ghost use Rattle.std.specs.Prelude.{◌≡◌, ◌↔◌, ◌+◌, [], IsTrue, OnErr, OnOk, length};
ghost use Rattle.std.specs.Bool.{OnFalse, OnTrue};
ghost use Rattle.std.specs.Option.{option_copied};
ghost use Rattle.rx_vars.specs.Tables.{look_up, with_change, with_entry, with_new, without_entry};

use indexmap::IndexMap;
use rx_tree::OutOfMemory;
use std::alloc::Global;
use std::marker::Model;

/// Names with what stands under them, each name once. Contracts see the list of them. A look-up takes a time that doesn't
/// grow with their number.
pub struct Table<V> {
    alloc: Global,
    entries: IndexMap<Vec<u8>, V>,
}

impl<V: Drop> Drop for Table<V> {
    fn drop(self) {
        let Table {
            alloc: _,
            entries: _,
        } = self;
    }
}

impl<V> Model for Table<V> {
    ghost use Rattle.std.specs.Prelude.{List, ℕ};
    ghost use Rattle.std.specs.Coded.{coded_list, coded_ℕ, coded×};
    ghost use Rattle.rx_vars.specs.Tables.{table_of};

    ghost Value = { List (List ℕ × V) };

    ghost coded = { coded_list (coded× (coded_list coded_ℕ) V.code) };

    ghost view = { λ t. table_of t.entries.entries };
}

impl<V: Drop> Table<V> {
    /// There is no name.
    pub fn new(alloc: Global) -> Table<V>
        ensures { result ≡ [] }
    {
        Table {
            alloc,
            entries: IndexMap::new(alloc),
        }
    }

    /// Whether there is no name.
    pub fn is_empty(&self) -> bool
        ensures { IsTrue result ↔ (self.now ≡ []) }
    {
        self.entries.is_empty()
    }

    /// What stands under a name, if something does.
    pub fn get(&self, name: &[u8]) -> Option<&V>
        ensures { option_copied result ≡ look_up self.now name.now }
    {
        self.entries.get(name)
    }

    /// Puts something under a name, or wants memory. A new name stands last.
    pub fn insert(&mut self, name: &[u8], value: V) -> Result<(), OutOfMemory>
        ensures ok { OnOk result (self.new ≡ with_entry self.old name.now value) }
        ensures err { OnErr result (self.new ≡ self.old) }
    {
        let key = Vec::from_slice(self.alloc, name)?;
        self.entries.insert(key, value)?;
        Ok(())
    }

    /// Puts something under a name under which nothing stands, or wants memory.
    pub fn add(&mut self, name: &[u8], value: V) -> Result<(), OutOfMemory>
        ensures ok { OnOk result (self.new ≡ with_new self.old name.now value) }
        ensures err { OnErr result (self.new ≡ self.old) }
    {
        if self.entries.contains_key(name) {
            return Ok(());
        }
        self.insert(name, value)
    }

    /// Takes a name away. The last name takes its place.
    pub fn remove(&mut self, name: &[u8])
        ensures { self.new ≡ without_entry self.old name.now }
    {
        let _ = self.entries.swap_remove(name);
    }

    /// Puts something under a name or takes the name away, or wants memory.
    pub fn change(&mut self, name: &[u8], value: Option<V>) -> Result<(), OutOfMemory>
        ensures ok { OnOk result (self.new ≡ with_change self.old name.now value) }
        ensures err { OnErr result (self.new ≡ self.old) }
    {
        match value {
            Some(value) => self.insert(name, value),
            None => {
                self.remove(name);
                Ok(())
            }
        }
    }

    /// Takes the last name away, and answers whether there was one.
    pub fn pop(&mut self) -> bool
        ensures one_less { OnTrue result (length self.new + 1 ≡ length self.old) }
        ensures none { OnFalse result (length self.old ≡ 0) }
    {
        self.entries.pop().is_some()
    }
}
