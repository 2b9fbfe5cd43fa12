// Calls.
ghost use Rattle.std.specs.Prelude.{◌≡◌};

use rx_tree::{Awaited, Text, Value};
use sqlite_items::Items;

/// What is sent. An argument that is omitted has no value.
#[derive(Drop)]
pub enum Sent {
    /// A message: its receiver, its name in upper case, the class in which a method is sought first, and the arguments.
    Message(Value, Text, Option<u32>, Items<Option<Value>>),
    /// A call of a label of the body.
    Label(Text, Items<Option<Value>>),
    /// A call of a routine of the program.
    Routine(Text, Items<Option<Value>>),
}

/// A call with how its answer is awaited.
pub struct Pending {
    pub sent: Sent,
    pub awaited: Awaited,
}

impl Drop for Pending {
    fn drop(self) {
        let Pending {
            sent: _,
            awaited: _,
        } = self;
    }
}

impl Pending {
    /// What is sent, where how the answer is awaited isn't wanted any more.
    pub fn into_sent(self) -> Sent
        ensures { result ≡ self.sent }
    {
        let Pending { sent, awaited: _ } = self;
        sent
    }
}
