// Rows of Message objects.
ghost use Rattle.std.specs.Prelude.{◌≡◌, IfOk};
ghost use Rattle.rx_heap.specs.Objects.{no_sending};

use rx_tree::{OutOfMemory, Outcome, Text, Value};
use sqlite_items::Items;
use std::alloc::Global;

/// What a Message object sends, and what came of it.
pub struct MessageRow {
    pub target: Value,
    pub name: Text,
    pub args: Items<Option<Value>>,
    /// Whether it was sent, or is to be sent.
    pub used: bool,
    pub outcome: Outcome,
    /// The activities that become live when it is complete.
    pub notify: Items<u32>,
}

impl Drop for MessageRow {
    fn drop(self) {
        let MessageRow {
            target: _,
            name: _,
            args: _,
            used: _,
            outcome: _,
            notify: _,
        } = self;
    }
}

impl MessageRow {
    ghost use Rattle.rx_heap.specs.Kept.{sending};

    /// The row of a Message that sends nothing yet, or want of memory.
    pub fn new(alloc: Global) -> Result<MessageRow, OutOfMemory>
        ensures { IfOk result (λ row. sending row ≡ no_sending) }
    {
        let name = Text::from_slice(alloc, &[])?;
        Ok(MessageRow {
            target: Value::Ref(1),
            name,
            args: Items::new(alloc),
            used: false,
            outcome: Outcome::Waiting,
            notify: Items::new(alloc),
        })
    }
}
