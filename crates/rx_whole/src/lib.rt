//! Whole numbers: the number that a text says, its text, and arithmetic within DIGITS.
#![tactic(auto)]

mod arithmetic;
mod digits;
mod division;
mod powers;
mod reading;
mod writing;

pub use arithmetic::{add, compare, multiply, subtract};
pub use digits::{INVALID_WHOLE_NUMBER, OVERFLOW};
pub use division::{divide, quotient, remainder};
pub use powers::power;
pub use reading::{Numeral, read_number};
pub use writing::number_text;
