//! The scanner: the tokens of a source, exactly where some tokens spell it.
#![tactic(auto)]

mod bytes;
mod comment;
mod depth;
mod mark;
mod piece;
mod place;
mod scanner;
mod string;
mod symbol;

pub use depth::bracket_depth;
pub use scanner::{LONGEST_SOURCE, ScanRefused, at_most_one_spelling, scan};
pub use symbol::read_symbol;
