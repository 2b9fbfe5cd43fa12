// What stands under the names of variables.
ghost use Rattle.std.specs.Prelude.{◌≡◌, [], OnErr, OnOk};
ghost use Rattle.std.specs.Option.{option_copied};
ghost use Rattle.rx_vars.specs.Names.{changed, found, found_at, no_names, no_stem, stem_in, with_name, with_new_tail, with_own, with_stem, with_tail};
ghost use Rattle.rx_vars.specs.Tables.{look_up};

use crate::table::Table;
use indexmap::IndexMap;
use rx_tree::{Derived, OutOfMemory};
use std::alloc::Global;
use std::marker::Model;
use std::mem;

/// What stands under a stem itself, and under the tails of its compounds.
pub struct StemRow<V> {
    pub own: Option<V>,
    pub tails: Table<V>,
}

impl<V: Drop> Drop for StemRow<V> {
    fn drop(self) {
        let StemRow { own: _, tails: _ } = self;
    }
}

impl<V: Drop> StemRow<V> {
    // Nothing stands under the stem.
    fn new(alloc: Global) -> StemRow<V>
        ensures { result ≡ no_stem }
    {
        StemRow {
            own: None,
            tails: Table::new(alloc),
        }
    }

    // What stands under a compound, or else under the stem.
    fn get(&self, tail: &[u8]) -> Option<&V>
        ensures { option_copied result ≡ found_at self.now tail.now }
    {
        match self.tails.get(tail) {
            Some(value) => Some(value),
            None => self.own.as_ref(),
        }
    }

    // Puts something under a compound itself, or nothing.
    fn change(&mut self, tail: &[u8], value: Option<V>) -> Result<(), OutOfMemory>
        ensures ok { OnOk result (self.new ≡ with_tail self.old tail.now value) }
        ensures err { OnErr result (self.new ≡ self.old) }
    {
        self.tails.change(tail, value)
    }

    // Puts something under a compound itself, unless something stands there.
    fn add(&mut self, tail: &[u8], value: V) -> Result<(), OutOfMemory>
        ensures ok { OnOk result (self.new ≡ with_new_tail self.old tail.now value) }
        ensures err { OnErr result (self.new ≡ self.old) }
    {
        self.tails.add(tail, value)
    }

    // Puts something under the stem itself, unless something stands there.
    fn add_own(&mut self, value: V)
        ensures { self.new ≡ with_own self.old value }
    {
        if self.own.is_none() {
            self.own = Some(value);
        }
    }
}

/// What stands under the names of variables. Contracts see lists: of simple names, and of stems, each with the tails of its
/// compounds. A look-up takes a time that doesn't grow with the number of names.
pub struct Names<V> {
    alloc: Global,
    simple: Table<V>,
    stems: IndexMap<Vec<u8>, StemRow<V>>,
}

impl<V: Drop> Drop for Names<V> {
    fn drop(self) {
        let Names {
            alloc: _,
            simple: _,
            stems: _,
        } = self;
    }
}

impl<V> Model for Names<V> {
    ghost use Rattle.std.specs.Prelude.{List, ℕ};
    ghost use Rattle.rx_vars.specs.Tables.{table_of};
    ghost use Rattle.rx_vars.specs.Names.{Names as Listed};

    ghost Value = { Listed V };

    ghost view = { λ n. record { simple = n.simple; stems = table_of n.stems.entries } };
}

impl<V: Drop> Names<V> {
    /// Nothing stands under any name.
    pub fn new(alloc: Global) -> Names<V>
        ensures { result ≡ no_names }
    {
        Names {
            alloc,
            simple: Table::new(alloc),
            stems: IndexMap::new(alloc),
        }
    }

    fn stem(&self, stem: &[u8]) -> Option<&StemRow<V>>
        ensures { option_copied result ≡ look_up self.now.stems stem.now }
    {
        self.stems.get(stem)
    }

    fn of_stem(&self, stem: &[u8]) -> Option<&V>
        ensures { option_copied result ≡ (stem_in self.now stem.now).own }
    {
        match self.stem(stem) {
            Some(row) => row.own.as_ref(),
            None => None,
        }
    }

    fn of_compound(&self, stem: &[u8], tail: &[u8]) -> Option<&V>
        ensures { option_copied result ≡ found_at (stem_in self.now stem.now) tail.now }
    {
        match self.stem(stem) {
            Some(row) => row.get(tail),
            None => None,
        }
    }

    /// What stands under a name. For a compound that is what stands under itself, or else what stands under its stem.
    pub fn get(&self, name: &Derived) -> Option<&V>
        ensures { option_copied result ≡ found self.now name.now }
    {
        match name {
            Derived::Simple(name) => self.simple.get(name.bytes()),
            Derived::Stem(stem) => self.of_stem(stem.bytes()),
            Derived::Compound(stem, tail) => self.of_compound(stem.bytes(), tail.bytes()),
        }
    }

    // Appends the row of a stem that has none.
    fn insert_stem(&mut self, stem: &[u8], row: StemRow<V>) -> Result<(), OutOfMemory>
        ensures ok { OnOk result (self.new ≡ with_stem self.old stem.now row) }
        ensures err { OnErr result (self.new ≡ self.old) }
    {
        let key = Vec::from_slice(self.alloc, stem)?;
        self.stems.insert(key, row)?;
        Ok(())
    }

    // Puts something under a stem or nothing, and under none of its compounds themselves. The tails that it had come out.
    fn change_stem(&mut self, stem: &[u8], own: Option<V>) -> Result<Table<V>, OutOfMemory>
        ensures ok { OnOk result (self.new ≡ with_stem self.old stem.now (record { own = own; tails = [] })) }
        ensures err { OnErr result (self.new ≡ self.old) }
    {
        let tails = Table::new(self.alloc);
        match self.stems.get_mut(stem) {
            Some(row) => {
                row.own = own;
                Ok(mem::replace(&mut row.tails, tails))
            }
            None => {
                self.insert_stem(stem, StemRow { own, tails })?;
                Ok(Table::new(self.alloc))
            }
        }
    }

    // Puts something under a compound itself, or nothing.
    fn change_tail(&mut self, stem: &[u8], tail: &[u8], value: Option<V>) -> Result<(), OutOfMemory>
        ensures ok { OnOk result
            (self.new ≡ with_stem self.old stem.now (with_tail (stem_in self.old stem.now) tail.now value)) }
        ensures err { OnErr result (self.new ≡ self.old) }
    {
        match self.stems.get_mut(stem) {
            Some(row) => row.change(tail, value),
            None => {
                let mut row = StemRow::new(self.alloc);
                row.change(tail, value)?;
                self.insert_stem(stem, row)
            }
        }
    }

    /// Puts something under a name or nothing, or wants memory. A stem's compounds have what the stem has then: what stood
    /// under them themselves comes out as a table, and nothing of it is touched.
    pub fn change(&mut self, name: &Derived, value: Option<V>) -> Result<Table<V>, OutOfMemory>
        ensures ok { OnOk result (self.new ≡ changed self.old name.now value) }
        ensures err { OnErr result (self.new ≡ self.old) }
    {
        match name {
            Derived::Simple(name) => self.simple.change(name.bytes(), value)?,
            Derived::Stem(stem) => return self.change_stem(stem.bytes(), value),
            Derived::Compound(stem, tail) => {
                self.change_tail(stem.bytes(), tail.bytes(), value)?
            }
        }
        Ok(Table::new(self.alloc))
    }

    // Puts something under a stem itself, unless something stands there.
    fn add_stem(&mut self, stem: &[u8], value: V) -> Result<(), OutOfMemory>
        ensures ok { OnOk result
            (self.new ≡ with_stem self.old stem.now (with_own (stem_in self.old stem.now) value)) }
        ensures err { OnErr result (self.new ≡ self.old) }
    {
        match self.stems.get_mut(stem) {
            Some(row) => {
                row.add_own(value);
                Ok(())
            }
            None => {
                let mut row = StemRow::new(self.alloc);
                row.add_own(value);
                self.insert_stem(stem, row)
            }
        }
    }

    // Puts something under a compound itself, unless something stands there.
    fn add_tail(&mut self, stem: &[u8], tail: &[u8], value: V) -> Result<(), OutOfMemory>
        ensures ok { OnOk result
            (self.new ≡ with_stem self.old stem.now (with_new_tail (stem_in self.old stem.now) tail.now value)) }
        ensures err { OnErr result (self.new ≡ self.old) }
    {
        match self.stems.get_mut(stem) {
            Some(row) => row.add(tail, value),
            None => {
                let mut row = StemRow::new(self.alloc);
                row.add(tail, value)?;
                self.insert_stem(stem, row)
            }
        }
    }

    /// Puts something under a name itself, or wants memory. What stands there already stays, and so does what stands under
    /// the compounds of a stem.
    pub fn add(&mut self, name: &Derived, value: V) -> Result<(), OutOfMemory>
        ensures ok { OnOk result (self.new ≡ with_name self.old name.now value) }
        ensures err { OnErr result (self.new ≡ self.old) }
    {
        match name {
            Derived::Simple(name) => self.simple.add(name.bytes(), value),
            Derived::Stem(stem) => self.add_stem(stem.bytes(), value),
            Derived::Compound(stem, tail) => { self.add_tail(stem.bytes(), tail.bytes(), value) }
        }
    }
}
