//! The objects of a run, with what each holds: an Array's places, a Queue's items, a Directory's entries, a Message's row.
//!
//! Objects have numbers from 1, in the order in which they were made: 1 is `.nil`, then come the classes.
#![tactic(auto)]

mod array;
mod contents;
mod directory;
mod heap;
mod kind;
mod message;
mod object;
mod queue;

pub use heap::{Heap, HeapRefused, heap_crosses};
pub use kind::Kind;
pub use message::MessageRow;
pub use rx_tree::{OutOfMemory, Outcome, Text, Value};
