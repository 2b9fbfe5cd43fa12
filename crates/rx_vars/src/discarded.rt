// Tables that no name leads to any more.
ghost use Rattle.std.specs.Prelude.{◌≡◌, ◌+◌, ◌-◌, ◌≤◌, length};

use crate::table::Table;
use std::alloc::Global;
use std::marker::Model;

/// Tables that no name leads to any more, to be freed an entry at a time. Contracts see how much is held: each table and each
/// of its entries counts.
pub struct Discarded<V> {
    tables: Vec<Table<V>>,
}

impl<V: Drop> Drop for Discarded<V> {
    fn drop(self) {
        let Discarded { tables: _ } = self;
    }
}

impl<V> Model for Discarded<V> {
    ghost use Rattle.std.specs.Prelude.{ℕ};
    ghost use Rattle.std.specs.Coded.{coded_ℕ};
    ghost use Rattle.rx_vars.specs.Discarded.{held_by};

    ghost Value = { ℕ };

    ghost coded = { coded_ℕ };

    ghost view = { λ d. held_by d.tables.items };
}

impl<V: Drop> Discarded<V> {
    /// Nothing is held.
    pub fn new(alloc: Global) -> Discarded<V>
        ensures { result ≡ 0 }
    {
        Discarded {
            tables: Vec::new(alloc),
        }
    }

    /// Takes a table. Where memory is wanting it is freed at once.
    pub fn add(&mut self, table: Table<V>)
        ensures { self.new ≤ self.old + length table + 1 }
    {
        let _ = self.tables.push(table);
    }

    /// Frees an entry, or a table that has none.
    pub fn free_one(&mut self)
        ensures { self.new ≤ self.old - 1 }
    {
        let Some(mut table) = self.tables.pop() else {
            return;
        };
        if table.pop() {
            self.add(table);
        }
    }
}
