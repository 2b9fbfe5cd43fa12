// Values that were read.
ghost use Rattle.std.specs.Prelude.{◌≡◌, [], ◌∷◌, ◌++◌, All, OnErr, OnOk};
ghost use Rattle.std.specs.Option.{option_copied};
ghost use Rattle.rx_eval.specs.Values.{read};

use crate::naming::same_name;
use rx_tree::{Derived, OutOfMemory, Value};
use sqlite_items::Items;
use std::alloc::Global;
use std::marker::Model;

/// Variables, each with its value if it has one. No variable stands there with two values. Contracts see them in their order.
pub struct Reads {
    entries: Items<(Derived, Option<Value>)>,
}

impl Drop for Reads {
    fn drop(self) {
        let Reads { entries: _ } = self;
    }
}

impl Model for Reads {
    ghost use Rattle.rx_eval.specs.Values.{Agree, Values};

    ghost Value = { Values };

    ghost view = { λ r. r.entries };

    ghost invariant = { λ r. Agree r.entries };
}

// The value of the first entry of a name.
fn first_of<'a>(entries: &'a [(Derived, Option<Value>)], name: &Derived) -> Option<&'a Value>
    ensures { option_copied result ≡ read entries.now name.now }
{
    for entry in entries {
        if same_name(&entry.0, name) {
            return entry.1.as_ref();
        }
    }
    None
}

impl Reads {
    /// No variable was read.
    pub fn new(alloc: Global) -> Reads
        ensures { result ≡ [] }
    {
        Reads {
            entries: Items::new(alloc),
        }
    }

    /// Puts a variable with its value at the end, or wants memory.
    pub fn push(&mut self, name: Derived, value: Option<Value>) -> Result<(), OutOfMemory>
        requires one_value { All (λ entry. entry.0 ≡ name → entry.1 ≡ value) self.old }
        ensures ok { OnOk result (self.new ≡ self.old ++ (name, value) ∷ []) }
        ensures err { OnErr result (self.new ≡ self.old) }
    {
        self.entries.push((name, value))?;
        Ok(())
    }

    /// The variables with their values.
    pub fn as_slice(&self) -> &[(Derived, Option<Value>)]
        ensures { result.now ≡ self.now }
    {
        self.entries.as_slice()
    }

    /// The value of a variable, if it has one. It is sought at a place first.
    pub(crate) fn get(&self, place: usize, name: &Derived) -> Option<&Value>
        ensures { option_copied result ≡ read self.now name.now }
    {
        match self.entries.get(place) {
            Some(entry) if same_name(&entry.0, name) => entry.1.as_ref(),
            _ => first_of(self.entries.as_slice(), name),
        }
    }
}
