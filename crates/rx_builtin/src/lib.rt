//! The built-in functions by their names, with arguments as they stand in a call: texts, of which some are left out.
//!
//! A function's row in `specs/` says its name, how many arguments it needs, the kinds of all that it takes, and its value.
//! 40 is raised where the arguments don't fit or one is outside its range, else 5 where the value would have more than
//! 16,777,216 bytes. ABS, MAX, MIN and SIGN raise 41 where an argument is no number, else 42 where one has more digits than
//! DIGITS. Each call takes time in proportion to its arguments and its value.
#![tactic(auto)]

mod answer;
mod argument;
mod calling;
mod changing;
mod conversion;
mod crossing;
mod cutting;
mod facts;
mod frame;
mod function;
mod number;
mod searching;
mod word;

pub use calling::{argument_object, call, is_builtin};
pub use crossing::facts_cross;
pub use facts::Facts;
pub use rx_answers::Refused;
