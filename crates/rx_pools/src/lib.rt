//! The pools of objects' variables, with the counts of their changes.
//!
//! A pool has the variables of one object that the methods of one scope expose. Its cells are the names that guards may watch,
//! a compound's by its stem; they are numbered over all pools. Each call takes a time that doesn't grow with the number of
//! pools, variables and cells.
#![tactic(auto)]

mod pools;

pub use pools::{Pool, Pools, pools_cross, watched_name};
pub use rx_tree::{Derived, OutOfMemory, Scope};
