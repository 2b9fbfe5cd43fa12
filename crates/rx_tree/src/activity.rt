// The small parts of activities, frames and messages.
use crate::text::Text;
use crate::value::Value;

/// What a frame runs.
#[derive(Clone, Copy, Debug, PartialEq, Eq)]
pub enum FrameKind {
    /// The main program.
    Main,
    Method,
    /// A routine of a `::ROUTINE` directive.
    Routine,
    /// A label's clauses, called from a frame of the same body.
    Internal,
}

/// What `TRACE` is set to in a frame.
#[derive(Clone, Copy, Debug, PartialEq, Eq)]
pub enum TraceSetting {
    All,
    Results,
    Normal,
    Off,
}

/// A condition that a frame may trap.
#[derive(Drop)]
pub enum Condition {
    Syntax,
    NoValue,
    NoMethod,
    /// A condition of the program's own, by its name in upper case.
    User(Text),
}

/// The condition that a frame trapped last.
pub struct Caught {
    pub name: Text,
    pub detail: Text,
    /// Whether a trap of `CALL ON` took it, not one of `SIGNAL ON`.
    pub by_call: bool,
}

impl Drop for Caught {
    fn drop(self) {
        let Caught {
            name: _,
            detail: _,
            by_call: _,
        } = self;
    }
}

/// What a Message object's message has come to.
#[derive(Drop)]
pub enum Outcome {
    /// It isn't complete.
    Waiting,
    /// It gave this value.
    Given(Value),
    /// It ended by the error of this number.
    Failed(u8),
}

/// How the answer of a call is awaited.
#[derive(Clone, Copy, Debug, PartialEq, Eq)]
pub enum Awaited {
    /// Not at all, as behind `~~`: it is let go, and the receiver's value stands in its place.
    Dropped,
    /// As it comes, with a value or without one, as by a message clause.
    Anything,
    /// As the value of a message. 91 is raised where there is none.
    Message,
    /// As the value of a function. 44 is raised where there is none.
    Function,
    /// As the string of an object. 93 is raised where there is no value, or an object.
    String,
}
