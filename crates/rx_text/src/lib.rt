//! The texts of the language, as bytes: its blanks, the order of two texts, and a text in upper case.
#![tactic(auto)]

mod blanks;
mod comparison;
mod uppercase;

pub use blanks::{is_blank, strip, strip_front};
pub use comparison::{compare_padded, compare_strict};
pub use uppercase::{OutOfMemory, upper};
