//! A program as it runs: the flat code of each body, what is fixed for its expressions, and the postfix code of each clause.
//!
//! Contracts see a program as the package that it was made of. All code is made when the program is, but for the defaults of a USE
//! ARG that has arguments: which of them are evaluated shows in the frame.
#![tactic(auto)]

mod classes;
mod coded;
mod compiling;
mod crossing;
mod fixing;
mod package;
mod program;

pub use classes::class_table;
pub use compiling::simple_of;
pub use crossing::program_crosses;
pub use program::Program;
pub use rx_tree::OutOfMemory;
