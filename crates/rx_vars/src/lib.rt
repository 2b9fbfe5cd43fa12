//! The variables of a frame: simple ones, stems and compounds, and where a name lives.
//!
//! A compound has the value that it was given itself, or else its stem's. An assignment to a stem is one to all its compounds.
//! A name lives in the frame, in its caller's, or in a pool of an object's variables, by what the frame exposes: a name
//! itself, or a stem with all its compounds. Each call takes a time that doesn't grow with the number of variables.
#![tactic(auto)]

mod discarded;
mod names;
mod rows;
mod table;
mod vars;

pub use names::{Names, StemRow};
pub use rows::Rows;
pub use rx_tree::{Derived, OutOfMemory, Place};
pub use table::Table;
pub use vars::{Vars, vars_cross};
