// Where a frame stands in the code of its body.
ghost use Rattle.std.specs.Prelude.{◌≡◌};
ghost use Rattle.rx_frames.specs.Frames.{beginning, call_with};

use rx_eval::Paused;
use rx_tree::{Awaited, Value};
use sqlite_items::Items;
use std::alloc::Global;

/// The call that the expressions of a clause have come to.
pub enum CallState {
    /// None was met yet.
    NoCall,
    /// Its answer is awaited.
    Awaiting(Awaited),
    /// The answer has come that was awaited so: a value, or none.
    Answered(Awaited, Option<Value>),
}

impl Drop for CallState {
    fn drop(self) {
        match self {
            CallState::NoCall => {}
            CallState::Awaiting(_) => {}
            CallState::Answered(_, _) => {}
        }
    }
}

impl CallState {
    // The answer comes where it is awaited.
    pub(crate) fn answer(&mut self, answer: Option<Value>)
        ensures { self.new ≡ call_with answer self.old }
    {
        let CallState::Awaiting(awaited) = *self else {
            return;
        };
        *self = CallState::Answered(awaited, answer);
    }
}

/// How far the expressions of a clause are evaluated.
pub struct Operands {
    /// The evaluation that stands at a call, where one was met.
    pub rest: Option<Paused>,
    /// The call.
    pub call: CallState,
}

impl Drop for Operands {
    fn drop(self) {
        let Operands { rest: _, call: _ } = self;
    }
}

/// How far a loop is.
pub struct LoopState {
    /// Whether a turn was made.
    pub begun: bool,
    /// How many more turns there may be, where they are counted.
    pub left: Option<u64>,
    /// The last value of its control variable, where there is one.
    pub to: Option<i64>,
    /// What is added to its control variable at each turn.
    pub by: i64,
    /// The items that its variable has still to take, the next one last.
    pub items: Items<Value>,
}

impl Drop for LoopState {
    fn drop(self) {
        let LoopState {
            begun: _,
            left: _,
            to: _,
            by: _,
            items: _,
        } = self;
    }
}

/// A loop that a frame is in.
pub struct Loop {
    /// The place of its turn in the code of the body.
    pub turn: u32,
    pub state: LoopState,
}

impl Drop for Loop {
    fn drop(self) {
        let Loop { turn: _, state: _ } = self;
    }
}

/// How often a cell that a guard reads had been changed when its test began.
#[derive(Clone, Copy, Debug, PartialEq, Eq)]
pub struct Mark {
    /// The number of the cell, over all pools.
    pub cell: u64,
    pub changes: u64,
}

/// The marks of the guard that a frame is at.
pub enum Marks {
    /// No guard's test was begun.
    NoGuard,
    /// A test that was begun, with a mark for each cell that it reads.
    Test(Items<Mark>),
    /// A test that has failed, with its marks: the frame waits until one of the cells is changed.
    Wait(Items<Mark>),
}

impl Drop for Marks {
    fn drop(self) {
        match self {
            Marks::NoGuard => {}
            Marks::Test(_) => {}
            Marks::Wait(_) => {}
        }
    }
}

/// Where a frame stands in the code of its body: this tells what it has still to do.
pub struct Position {
    /// The place in the code.
    pub place: u32,
    /// How far the clause there is evaluated.
    pub operands: Operands,
    /// The loops that it is in, the innermost last.
    pub loops: Items<Loop>,
    pub marks: Marks,
}

impl Drop for Position {
    fn drop(self) {
        let Position {
            place: _,
            operands: _,
            loops: _,
            marks: _,
        } = self;
    }
}

impl Position {
    /// The beginning of the body.
    pub fn beginning(alloc: Global) -> Position
        ensures { result ≡ beginning }
    {
        Position {
            place: 0,
            operands: Operands {
                rest: None,
                call: CallState::NoCall,
            },
            loops: Items::new(alloc),
            marks: Marks::NoGuard,
        }
    }
}
