// Directories.
ghost use Rattle.std.specs.Prelude.{◌≡◌, ◌++◌, [], ◌∷◌, None, Some, length, IfOk, OnErr, OnOk};
ghost use Rattle.std.specs.Option.{option_copied};
ghost use Rattle.rx_vars.specs.Tables.{look_up, table_of, with_entry};
ghost use Rattle.rx_heap.specs.Directories.{names_of, without_name};
ghost use Rattle.rx_heap.specs.Stamps.{Stay};

use indexmap::IndexMap;
use rx_tree::{OutOfMemory, Text, Value};
use sqlite_items::Items;
use std::alloc::Global;
use std::collections::BTreeMap;
use std::marker::Model;

// The stamp of a name, if it has one.
fn stamp_of(stamps: &IndexMap<Vec<u8>, u64>, name: &[u8]) -> Option<u64>
    ensures { result ≡ look_up (table_of stamps.now.entries) name.now }
{
    stamps.get(name).copied()
}

// Takes the stamp of a name away, if it has one, and tells it.
fn forget(stamps: &mut IndexMap<Vec<u8>, u64>, name: &[u8]) -> Option<u64>
    ensures stamp { result ≡ look_up (table_of stamps.old.entries) name.now }
    ensures gone { look_up (table_of stamps.new.entries) name.now ≡ None }
    ensures others { Stay name.now (table_of stamps.old.entries) (table_of stamps.new.entries) }
{
    stamps.swap_remove(name)
}

// Gives a name this stamp, or wants memory.
fn give(
    alloc: Global,
    stamps: &mut IndexMap<Vec<u8>, u64>,
    name: &[u8],
    stamp: u64,
) -> Result<(), OutOfMemory>
    ensures stamp { OnOk result (look_up (table_of stamps.new.entries) name.now ≡ Some stamp) }
    ensures others { OnOk result
        (Stay name.now (table_of stamps.old.entries) (table_of stamps.new.entries)) }
    ensures err { OnErr result (stamps.new.entries ≡ stamps.old.entries) }
{
    let key = Vec::from_slice(alloc, name)?;
    stamps.insert(key, stamp)?;
    Ok(())
}

/// A Directory's names with their values. Contracts see the list of them, in the order in which the names were put.
///
/// Each name has a stamp, and those of new names grow. So the entries stand in the order of their stamps, and none moves when
/// one is taken away.
pub struct Directory {
    alloc: Global,
    stamps: IndexMap<Vec<u8>, u64>,
    // By stamp.
    entries: BTreeMap<u64, (Text, Value)>,
    // The stamp of the next new name.
    next: u64,
}

impl Drop for Directory {
    fn drop(self) {
        let Directory {
            alloc: _,
            stamps: _,
            entries: _,
            next: _,
        } = self;
    }
}

impl Model for Directory {
    ghost use Rattle.std.specs.Prelude.{List, ℕ};
    ghost use Rattle.std.specs.Map.{values_of};
    ghost use Rattle.rx_tree.specs.declared.value.Value.{Value as OfValue};
    ghost use Rattle.rx_vars.specs.Tables.{table_of};
    ghost use Rattle.rx_heap.specs.Stamps.{AreStamped};

    ghost Value = { List (List ℕ × OfValue) };

    ghost view = { λ d. values_of d.entries.entries };

    ghost invariant = { λ d. AreStamped (table_of d.stamps.entries) d.entries.entries d.next };
}

impl Directory {
    /// The most names, so that their number is a `u32`.
    pub const MOST: usize = 4_294_967_295;

    /// There is no name.
    pub fn new(alloc: Global) -> Directory
        ensures { result ≡ [] }
    {
        Directory {
            alloc,
            stamps: IndexMap::new(alloc),
            entries: BTreeMap::new(alloc),
            next: 0,
        }
    }

    /// How many names there are.
    pub fn len(&self) -> u32
        ensures { result ≡ length self.now }
    {
        self.entries.len() as u32
    }

    /// The value of a name, if it has one.
    pub fn get(&self, name: &[u8]) -> Option<&Value>
        ensures { option_copied result ≡ look_up self.now name.now }
    {
        let stamp = stamp_of(&self.stamps, name)?;
        let entry = self.entries.get(&stamp)?;
        Some(&entry.1)
    }

    /// The names in order, or want of memory.
    pub fn names(&self) -> Result<Items<Text>, OutOfMemory>
        ensures { IfOk result (λ names. names ≡ names_of self.now) }
    {
        let mut names = Items::new(self.alloc);
        for (_, entry) in &self.entries {
            names.push(entry.0.share()?)?;
        }
        Ok(names)
    }

    // Puts a new name last.
    fn append(&mut self, name: &Text, value: Value) -> Result<(), OutOfMemory>
        requires { look_up self.old name.now ≡ None }
        ensures ok { OnOk result (self.new ≡ self.old ++ (name.now, value) ∷ []) }
        ensures err { OnErr result (self.new ≡ self.old) }
    {
        let stamp = self.next;
        if self.entries.len() >= Self::MOST || stamp == u64::MAX {
            return Err(OutOfMemory);
        }
        let stored = name.share()?;
        give(self.alloc, &mut self.stamps, name.bytes(), stamp)?;
        self.next = stamp + 1;
        self.entries.insert(stamp, (stored, value))?;
        Ok(())
    }

    /// Puts a value under a name, or wants memory, as it does where there are 4,294,967,295 names. A new name stands last.
    pub fn put(&mut self, name: &Text, value: Value) -> Result<(), OutOfMemory>
        ensures ok { OnOk result (self.new ≡ with_entry self.old name.now value) }
        ensures err { OnErr result (self.new ≡ self.old) }
    {
        if let Some(stamp) = stamp_of(&self.stamps, name.bytes()) {
            if let Some(entry) = self.entries.get_mut(&stamp) {
                entry.1 = value;
                return Ok(());
            }
        }
        self.append(name, value)
    }

    /// Takes a name away, if it is there, and tells its value. Those behind it close up.
    pub fn remove(&mut self, name: &[u8]) -> Option<Value>
        ensures value { result ≡ look_up self.old name.now }
        ensures rest { self.new ≡ without_name self.old name.now }
    {
        let stamp = forget(&mut self.stamps, name)?;
        let (_, value) = self.entries.remove(&stamp)?;
        Some(value)
    }
}
