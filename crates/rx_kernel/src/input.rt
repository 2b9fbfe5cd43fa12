// Lines of input that are given.
ghost use Rattle.std.specs.Prelude.{◌≡◌, OnErr, OnOk};
ghost use Rattle.rx_kernel.specs.Given.{given};
ghost use Rattle.rx_kernel.specs.States.{world_of};

use crate::state::State;
use rx_tree::{OutOfMemory, Text};

impl State {
    /// Gives a line of input, which comes behind those that were given; or tells that there is none any more. It wants memory too
    /// where memory was wanted in the midst of a step.
    pub fn give_line(&mut self, line: Option<Text>) -> Result<(), OutOfMemory>
        ensures ok { OnOk result (world_of self.new ≡ given (world_of self.old) line) }
        ensures err { OnErr result (world_of self.new ≡ world_of self.old) }
        ensures closed { self.new.closed ≡ self.old.closed }
    {
        if self.closed {
            return Err(OutOfMemory);
        }
        match line {
            Some(line) => self.lines.push_back(line),
            None => {
                self.ended = true;
                Ok(())
            }
        }
    }
}
