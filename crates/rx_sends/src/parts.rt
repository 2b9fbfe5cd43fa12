// What messages act on, and messages.
ghost use Rattle.std.specs.Prelude.{◌≡◌};

use rx_classes::ClassTable;
use rx_frames::Stacks;
use rx_heap::Heap;
use rx_pools::Pools;
use rx_tree::{Text, Value};
use sqlite_items::Items;

/// What messages act on: the frames of all activities, the objects, the classes, and the pools of the objects' variables.
pub struct Parts {
    pub stacks: Stacks,
    pub heap: Heap,
    pub classes: ClassTable,
    pub pools: Pools,
}

impl Drop for Parts {
    fn drop(self) {
        let Parts {
            stacks: _,
            heap: _,
            classes: _,
            pools: _,
        } = self;
    }
}

/// A message on its way to its receiver.
pub struct Sent {
    /// The receiver.
    pub target: Value,
    /// The name, in upper case.
    pub name: Text,
    /// The class at which the search for a method begins, where one is given.
    pub above: Option<u32>,
    /// The arguments. One that is omitted has no value.
    pub args: Items<Option<Value>>,
}

impl Drop for Sent {
    fn drop(self) {
        let Sent {
            target: _,
            name: _,
            above: _,
            args: _,
        } = self;
    }
}

impl Sent {
    /// Its receiver and its arguments, where its name isn't wanted any more.
    pub(crate) fn into_target_and_args(self) -> (Value, Items<Option<Value>>)
        ensures target { result.0 ≡ self.target }
        ensures args { result.1 ≡ self.args }
    {
        let Sent {
            target,
            name: _,
            above: _,
            args,
        } = self;
        (target, args)
    }

    /// Its receiver and its name, where its arguments aren't wanted any more.
    pub(crate) fn into_target_and_name(self) -> (Value, Text)
        ensures target { result.0 ≡ self.target }
        ensures name { result.1 ≡ self.name }
    {
        let Sent {
            target,
            name,
            above: _,
            args: _,
        } = self;
        (target, name)
    }
}

fn crosses_threads<T: Send + Sync>(_value: &T) {}

/// What messages act on may be sent to another thread and shared with it: this call compiles for its type alone.
pub fn parts_cross(parts: &Parts) {
    crosses_threads(parts);
}
