// Variables with their values.
ghost use Rattle.std.specs.Prelude.{◌≡◌, OnErr, OnOk};
ghost use Rattle.std.specs.Option.{option_copied};
ghost use Rattle.rx_vars.specs.Names.{changed, found, no_names};

use crate::discarded::Discarded;
use crate::names::Names;
use rx_tree::{Derived, OutOfMemory, Value};
use std::alloc::Global;
use std::marker::Model;

/// Variables with their values: those of a frame, or of an object's pool. Contracts see the lists of them.
///
/// A look-up and a change take a time that doesn't grow with the number of variables. That is so for an assignment to a stem
/// with however many compounds: they are put aside whole, and each later change frees two of them.
pub struct Rows {
    names: Names<Value>,
    discarded: Discarded<Value>,
}

impl Drop for Rows {
    fn drop(self) {
        let Rows {
            names: _,
            discarded: _,
        } = self;
    }
}

impl Model for Rows {
    ghost use Rattle.rx_tree.specs.declared.value.Value.{Value as OfValue};
    ghost use Rattle.rx_vars.specs.Names.{Names as Listed};

    ghost Value = { Listed OfValue };

    ghost view = { λ r. r.names };
}

impl Rows {
    /// No variable has a value.
    pub fn new(alloc: Global) -> Rows
        ensures { result ≡ no_names }
    {
        Rows {
            names: Names::new(alloc),
            discarded: Discarded::new(alloc),
        }
    }

    /// The value of a name, if it has one: its own, or else for a compound its stem's.
    pub fn get(&self, name: &Derived) -> Option<&Value>
        ensures { option_copied result ≡ found self.now name.now }
    {
        self.names.get(name)
    }

    /// Gives a name a value or none, or wants memory. With a stem all its compounds have the stem's value, or none.
    pub fn change(&mut self, name: &Derived, value: Option<Value>) -> Result<(), OutOfMemory>
        ensures ok { OnOk result (self.new ≡ changed self.old name.now value) }
        ensures err { OnErr result (self.new ≡ self.old) }
    {
        self.discarded.free_one();
        self.discarded.free_one();
        let tails = self.names.change(name, value)?;
        if !tails.is_empty() {
            self.discarded.add(tails);
        }
        Ok(())
    }
}
