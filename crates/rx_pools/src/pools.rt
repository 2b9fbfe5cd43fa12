// The pools of objects' variables.
ghost use Rattle.std.specs.Prelude.{◌≡◌, ◌+◌, ◌<◌, ◌^◌, ◌++◌, [], ◌∷◌, length, slice_get, slice_index, slice_set, IfOk, IfSome, IsTrue, OnErr, OnOk, Some, None};
ghost use Rattle.std.specs.Option.{option_copied, option_map};
ghost use Rattle.rx_vars.specs.Names.{found};
ghost use Rattle.rx_pools.specs.Pools.{IsGiven, cell_in, changes_of, no_pools, owner_of, pool_number, rows_in, touched, watched_name, with_cell, with_numbered_cell, with_pool, with_rows_changed, with_value};

use indexmap::IndexMap;
use rx_tree::{Derived, OutOfMemory, Scope, Text, Value};
use rx_vars::{Rows, Table};
use std::alloc::Global;
use std::marker::Model;

/// A pool's variables, and the numbers of its cells by their names.
pub struct Pool {
    pub rows: Rows,
    pub cells: Table<u64>,
}

impl Drop for Pool {
    fn drop(self) {
        let Pool { rows: _, cells: _ } = self;
    }
}

/// The pools of objects' variables, in the order in which they were made, and how often each cell was changed. Contracts see
/// the lists of both.
pub struct Pools {
    alloc: Global,
    // By the object, and by the class and the side of the scope.
    pools: IndexMap<(u32, u32, bool), Pool>,
    // By the numbers of the cells.
    counts: Vec<u64>,
}

impl Drop for Pools {
    fn drop(self) {
        let Pools {
            alloc: _,
            pools: _,
            counts: _,
        } = self;
    }
}

impl Model for Pools {
    ghost use Rattle.std.specs.Prelude.{◌≤◌, length};
    ghost use Rattle.rx_pools.specs.Pools.{Pools as Listed};
    ghost use Rattle.rx_pools.specs.Entries.{most_pools, pools_of};

    ghost Value = { Listed };

    ghost view = { λ p. record { pools = pools_of p.pools.entries; counts = p.counts.items } };

    ghost invariant = { λ p. length p.pools.entries ≤ most_pools };
}

/// The name under which a variable is watched: its own, or a compound's stem.
pub fn watched_name(name: &Derived) -> &Text
    ensures { result.now ≡ watched_name name.now }
{
    match name {
        Derived::Simple(name) => name,
        Derived::Stem(stem) => stem,
        Derived::Compound(stem, _) => stem,
    }
}

impl Pools {
    /// The most pools, so that the number of each is a `u32`.
    pub const MOST: usize = 4_294_967_294;

    // A cell that was changed less often may be changed once more.
    const MOST_CHANGES: u64 = 9_223_372_036_854_775_808;

    /// There is no pool, and no cell.
    pub fn new(alloc: Global) -> Pools
        ensures { result ≡ no_pools }
    {
        Pools {
            alloc,
            pools: IndexMap::new(alloc),
            counts: Vec::new(alloc),
        }
    }

    /// How many pools there are.
    pub fn count(&self) -> u32
        ensures count { result ≡ length self.now.pools }
    {
        self.pools.len() as u32
    }

    fn number(&self, object: u32, scope: Scope) -> Option<u32>
        ensures { result ≡ pool_number self.now object scope }
    {
        let place = self
            .pools
            .get_index_of(&(object, scope.class, scope.class_side))?;
        Some(place as u32)
    }

    /// The number of the pool of an object and a scope, or want of memory. It is made where there is none yet. There is want
    /// of memory too where there are 4,294,967,294 pools.
    pub fn pool_of(&mut self, object: u32, scope: Scope) -> Result<u32, OutOfMemory>
        ensures number { IfOk result (λ number. Some number ≡ pool_number self.new object scope) }
        ensures ok { OnOk result (self.new ≡ with_pool self.old object scope) }
        ensures err { OnErr result (self.new ≡ self.old) }
    {
        if let Some(number) = self.number(object, scope) {
            return Ok(number);
        }
        let number = self.pools.len();
        if number >= Self::MOST {
            return Err(OutOfMemory);
        }
        let pool = Pool {
            rows: Rows::new(self.alloc),
            cells: Table::new(self.alloc),
        };
        self.pools
            .insert((object, scope.class, scope.class_side), pool)?;
        Ok(number as u32)
    }

    /// The object and the scope of a pool.
    pub fn owner(&self, number: u32) -> (u32, Scope)
        requires { number < length self.now.pools }
        ensures owner { option_map owner_of (slice_get self.now.pools number) ≡ Some result }
    {
        let (key, _) = self.pools.get_index(number as usize).unwrap();
        let (object, class, class_side) = *key;
        (object, Scope { class, class_side })
    }

    // The number of the cell of a name in a pool, once it was given out.
    fn cell_in(&self, number: u32, name: &[u8]) -> Option<u64>
        ensures { result ≡ cell_in self.now number name.now }
    {
        let (_, pool) = self.pools.get_index(number as usize)?;
        pool.cells.get(name).copied()
    }

    // Gives the cell of a name in a pool this number.
    fn insert_cell(&mut self, number: u32, name: &[u8], cell: u64) -> Result<(), OutOfMemory>
        ensures ok { OnOk result (self.new ≡ with_numbered_cell self.old number name.now cell) }
        ensures err { OnErr result (self.new ≡ self.old) }
    {
        let Some(pool) = self.pools.get_index_mut(number as usize) else {
            return Ok(());
        };
        pool.cells.insert(name, cell)
    }

    /// The number of the cell of a name in a pool, over all pools, or want of memory. It gets the next number where it has
    /// none yet. The name is that of a simple variable or a stem.
    pub fn cell(&mut self, number: u32, name: &Text) -> Result<u64, OutOfMemory>
        requires { number < length self.old.pools }
        ensures cell { IfOk result (λ cell. Some cell ≡ cell_in self.new number name.now) }
        ensures ok { OnOk result (self.new ≡ with_cell self.old number name.now) }
        ensures err { OnErr result (self.new ≡ self.old) }
    {
        if let Some(cell) = self.cell_in(number, name.bytes()) {
            return Ok(cell);
        }
        let cell = self.counts.len() as u64;
        self.counts.push(0)?;
        match self.insert_cell(number, name.bytes(), cell) {
            Ok(()) => Ok(cell),
            Err(error) => {
                let _ = self.counts.pop();
                Err(error)
            }
        }
    }

    /// The value that a name has in a pool: its own, or else for a compound its stem's.
    pub fn get(&self, number: u32, name: &Derived) -> Option<&Value>
        requires { number < length self.now.pools }
        ensures value { option_copied result ≡ found (rows_in self.now number) name.now }
    {
        let (_, pool) = self.pools.get_index(number as usize).unwrap();
        pool.rows.get(name)
    }

    // Gives a name of a pool a value or none.
    fn change_rows(
        &mut self,
        number: u32,
        name: &Derived,
        value: Option<Value>,
    ) -> Result<(), OutOfMemory>
        ensures ok { OnOk result (self.new ≡ with_rows_changed self.old number name.now value) }
        ensures err { OnErr result (self.new ≡ self.old) }
    {
        let Some(pool) = self.pools.get_index_mut(number as usize) else {
            return Ok(());
        };
        pool.rows.change(name, value)
    }

    // Counts a change of a cell.
    fn touch(&mut self, cell: u64)
        requires { changes_of self.old cell < 2 ^ 63 }
        ensures { self.new ≡ record self.old { counts = touched self.old.counts (Some cell) } }
    {
        if let Some(count) = self.counts.get_mut(cell as usize) {
            *count += 1;
        }
    }

    // Gives a name of a pool a value or none, and counts the change of its cell, whose number is told.
    fn change(
        &mut self,
        number: u32,
        name: &Derived,
        value: Option<Value>,
    ) -> Result<u64, OutOfMemory>
        requires given { IsGiven self.old number (watched_name name.now) }
        ensures cell { IfOk result (λ cell. Some cell ≡ cell_in self.old number (watched_name name.now)) }
        ensures ok { OnOk result (self.new ≡ with_value self.old number name.now value) }
        ensures err { OnErr result (self.new ≡ self.old) }
    {
        let cell = self.cell_in(number, watched_name(name).bytes()).unwrap();
        self.change_rows(number, name, value)?;
        self.touch(cell);
        Ok(cell)
    }

    /// Gives a name of a pool a value, and counts the change of its cell, whose number is told; or wants memory. With a stem
    /// all its compounds have this value. The cell was given out, and was changed less than 2 ^ 63 times.
    pub fn set(&mut self, number: u32, name: &Derived, value: Value) -> Result<u64, OutOfMemory>
        requires given { IsGiven self.old number (watched_name name.now) }
        ensures cell { IfOk result (λ cell. Some cell ≡ cell_in self.old number (watched_name name.now)) }
        ensures ok { OnOk result (self.new ≡ with_value self.old number name.now (Some value)) }
        ensures err { OnErr result (self.new ≡ self.old) }
    {
        self.change(number, name, Some(value))
    }

    /// Takes the value of a name of a pool away, and counts the change of its cell, whose number is told; or wants memory.
    /// With a stem all its compounds lose theirs. The cell was given out, and was changed less than 2 ^ 63 times.
    pub fn drop_name(&mut self, number: u32, name: &Derived) -> Result<u64, OutOfMemory>
        requires given { IsGiven self.old number (watched_name name.now) }
        ensures cell { IfOk result (λ cell. Some cell ≡ cell_in self.old number (watched_name name.now)) }
        ensures ok { OnOk result (self.new ≡ with_value self.old number name.now None) }
        ensures err { OnErr result (self.new ≡ self.old) }
    {
        self.change(number, name, None)
    }

    /// Whether the cell of a name in a pool was given out, and was changed less than 2 ^ 63 times.
    pub fn is_given(&self, number: u32, name: &Derived) -> bool
        ensures { IsTrue result → IsGiven self.now number (watched_name name.now) }
    {
        match self.cell_in(number, watched_name(name).bytes()) {
            Some(cell) => self.changes(cell) < Self::MOST_CHANGES,
            None => false,
        }
    }

    /// How often a cell was changed.
    pub fn changes(&self, cell: u64) -> u64
        ensures changes { result ≡ changes_of self.now cell }
    {
        self.counts.get(cell as usize).copied().unwrap_or(0)
    }
}

fn crosses_threads<T: Send + Sync>(_value: &T) {}

/// Pools may be sent to another thread and shared with it: this call compiles for their type alone.
pub fn pools_cross(pools: &Pools) {
    crosses_threads(pools);
}
