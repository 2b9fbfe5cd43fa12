// Lines in a row.
ghost use Rattle.std.specs.Prelude.{◌≡◌, [], ◌∷◌, ◌++◌, drop, length, slice_get, OnErr, OnOk};

use rx_tree::{OutOfMemory, Text};
use std::alloc::Global;
use std::collections::VecDeque;
use std::marker::Model;

/// Lines in a row. Contracts see the list of them, the front first. Each call takes a time that doesn't grow with their number.
pub struct Lines {
    items: VecDeque<Text>,
}

impl Drop for Lines {
    fn drop(self) {
        let Lines { items: _ } = self;
    }
}

impl Model for Lines {
    ghost use Rattle.std.specs.Prelude.{ℕ, List};

    ghost Value = { List (List ℕ) };

    ghost view = { λ l. l.items.items };
}

impl Lines {
    /// There is no line.
    pub fn new(alloc: Global) -> Lines
        ensures { result ≡ [] }
    {
        Lines {
            items: VecDeque::new(alloc),
        }
    }

    /// How many lines there are.
    pub fn count(&self) -> u64
        ensures { result ≡ length self.now }
    {
        self.items.len() as u64
    }

    /// Puts a line at the end, or wants memory.
    pub fn push_back(&mut self, line: Text) -> Result<(), OutOfMemory>
        ensures ok { OnOk result (self.new ≡ self.old ++ line ∷ []) }
        ensures err { OnErr result (self.new ≡ self.old) }
    {
        self.items.push_back(line)?;
        Ok(())
    }

    /// Puts a line in front, or wants memory.
    pub fn push_front(&mut self, line: Text) -> Result<(), OutOfMemory>
        ensures ok { OnOk result (self.new ≡ line ∷ self.old) }
        ensures err { OnErr result (self.new ≡ self.old) }
    {
        self.items.push_front(line)?;
        Ok(())
    }

    /// Takes the line in front away, if there is one.
    pub fn pop_front(&mut self) -> Option<Text>
        ensures line { result ≡ slice_get self.old 0 }
        ensures rest { self.new ≡ drop 1 self.old }
    {
        self.items.pop_front()
    }
}
