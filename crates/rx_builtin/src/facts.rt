// What a call reads besides its arguments.
use rx_tree::{Caught, Shared, Text, Value};

/// What a call reads besides its arguments: of the frame that makes it, of the queue and of the source.
pub struct Facts {
    /// DIGITS of the frame, 1 to 18.
    pub digits: u8,
    /// The arguments of the frame. One that was omitted has no value.
    pub arguments: Shared<Option<Value>>,
    /// How many lines the queue has.
    pub queued: u64,
    /// The condition that the frame trapped last.
    pub condition: Option<Caught>,
    /// The lines of the source.
    pub lines: Shared<Text>,
}

impl Drop for Facts {
    fn drop(self) {
        let Facts {
            digits: _,
            arguments: _,
            queued: _,
            condition: _,
            lines: _,
        } = self;
    }
}
