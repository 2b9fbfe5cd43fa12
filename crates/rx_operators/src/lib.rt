//! The operators between two strings and in front of one, and what they are called as messages to objects.
//!
//! Arithmetic raises 41 where an operand is no number, else 42 or 26 within DIGITS. `=`, `<` and `>` compare two numbers as
//! numbers, else texts without their outer blanks, the shorter one padded; the strict comparisons compare bytes. `&`, `|`,
//! `&&` and `\` raise 34 where an operand is neither `0` nor `1`. A join raises 5 where it would have more than 16,777,216
//! bytes. Each operator takes time in proportion to its operands.
#![tactic(auto)]

mod arithmetic;
mod comparison;
mod family;
mod logic;
mod operator;

pub use family::{Arithmetic, Comparison, Connective, Family, family_of, is_join, message_name};
pub use logic::{NOT_LOGICAL, logical};
pub use operator::{operate, operate_before};
pub use rx_answers::{Bytes, Refused};
