//! Flat code of bodies, and what a place in a body stands for: a list of what is still to be done.
//!
//! A clause comes to other clauses, to one of two lists, or to a loop, by its rule; what is still to be done is a list of
//! clauses and of loops between their turns. A body's code has a place for each clause and each turn, and a place with the
//! loops that a frame is in stands for such a list. So control flow copies no tree and no list.
#![tactic(auto)]

mod code;
mod finding;
mod flat;
mod flatten;
mod found;
mod keeping;
mod labels;
mod loops;
mod names;

pub use code::{Code, Op};
pub use flat::{Flat, flatten_body};
pub use found::{Found, FoundLoop, Turn};
pub use labels::label;
pub use rx_tree::OutOfMemory;
