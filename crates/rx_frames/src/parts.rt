// The small parts of frames.
use rx_tree::{Condition, Scope, Text};

/// What a method's frame runs on: its object, its scope, and the pool of both.
#[derive(Clone, Copy, Debug, PartialEq, Eq)]
pub struct Own {
    /// The number of the object.
    pub object: u32,
    pub scope: Scope,
    /// The number of the pool, from 0.
    pub pool: u32,
}

/// A trap of SIGNAL ON or CALL ON.
pub struct Trap {
    pub condition: Condition,
    /// Whether CALL ON set it.
    pub by_call: bool,
    /// The label that control goes to.
    pub label: Text,
}

impl Drop for Trap {
    fn drop(self) {
        let Trap {
            condition: _,
            by_call: _,
            label: _,
        } = self;
    }
}

/// A call of a trap's label that a frame has still to make.
pub struct Due {
    pub label: Text,
    /// The line of the clause in which the condition was trapped.
    pub line: u32,
}

impl Drop for Due {
    fn drop(self) {
        let Due { label: _, line: _ } = self;
    }
}
