// SAY, PUSH and QUEUE.
ghost use Rattle.std.specs.Prelude.{◌≡◌, IfOk, OnOk};
ghost use Rattle.rx_machine.specs.Values.{text_of};
ghost use Rattle.rx_kernel.specs.States.{world_of};
ghost use Rattle.rx_kernel.specs.Steps.{pushed, queued, said};

use crate::state::State;
use rx_tree::{OutOfMemory, Text, Value};
use std::alloc::Global;

const LINE_FEED: u8 = 10;

// The bytes of the first value: none where it is an object, or where there is no value.
fn bytes_of(values: &[Value]) -> &[u8]
    ensures { result.now ≡ text_of values.now }
{
    match values {
        [Value::Str(text), ..] => text.bytes(),
        _ => b"",
    }
}

/// The text of the first value: it is empty where this is an object, or where there is no value.
pub(crate) fn text_of(alloc: Global, values: &[Value]) -> Result<Text, OutOfMemory>
    ensures { IfOk result (λ text. text ≡ text_of values.now) }
{
    match values {
        [Value::Str(text), ..] => text.share(),
        _ => Text::from_slice(alloc, b""),
    }
}

impl State {
    /// SAY writes a line, or wants memory.
    pub(crate) fn say(&mut self, values: &[Value]) -> Result<(), OutOfMemory>
        ensures { OnOk result (world_of self.new ≡ said (world_of self.old) values.now) }
    {
        self.output.extend_from_slice(bytes_of(values))?;
        self.output.push(LINE_FEED)?;
        Ok(())
    }

    /// PUSH puts a line in front of the queue, or wants memory.
    pub(crate) fn push_line(&mut self, alloc: Global, values: &[Value]) -> Result<(), OutOfMemory>
        ensures { OnOk result (world_of self.new ≡ pushed (world_of self.old) values.now) }
    {
        let line = text_of(alloc, values)?;
        self.queue.push_front(line)
    }

    /// QUEUE puts a line at the end of the queue, or wants memory.
    pub(crate) fn queue_line(&mut self, alloc: Global, values: &[Value]) -> Result<(), OutOfMemory>
        ensures { OnOk result (world_of self.new ≡ queued (world_of self.old) values.now) }
    {
        let line = text_of(alloc, values)?;
        self.queue.push_back(line)
    }
}
