//! The frames of activities: what each activity is in the middle of, and what it waits for.
//!
//! A frame tells what is still to be done as a position in the code of its body, and knows nothing of that code. Whether an
//! activity's top frame asks for its pool, and what the activity waits for, is told by `Stacks::look` alone, which counts how
//! often it was called; only of a Message that an activity is to send there is `Stacks::first_message` besides.
#![tactic(auto)]

mod activity;
mod crossing;
mod frame;
mod parts;
mod position;
mod stacks;

pub use activity::{Look, Wait};
pub use crossing::{frame_crosses, stacks_cross};
pub use frame::Frame;
pub use parts::{Due, Own, Trap};
pub use position::{CallState, Loop, LoopState, Mark, Marks, Operands, Position};
pub use rx_tree::{Awaited, OutOfMemory};
pub use stacks::{BeginRefused, PushRefused, Stacks};
