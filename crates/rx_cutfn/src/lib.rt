//! The built-in functions on positions of a text, from LENGTH to COUNTSTR.
//!
//! Positions begin at 1, in bytes. A pad that a caller leaves out is a blank, which the caller gives. An argument outside
//! its range is refused with 40, and else a value of more than 16,777,216 bytes with 5, before any of it is built. A call
//! that gives a number takes no memory. Each call takes time in proportion to its texts and its value.
#![tactic(auto)]

mod answer;
mod cutting;
mod joining;
mod letters;
mod replacing;
mod searching;
mod stripping;

pub use cutting::{center, delstr, left, length, right, substr};
pub use joining::{copies, insert, overlay, reverse};
pub use letters::{lower, translate, upper};
pub use replacing::{changestr, countstr};
pub use rx_answers::{Bytes, INCORRECT_CALL, LONGEST, Number, RESOURCES_EXHAUSTED, Refused};
pub use searching::{abbrev, compare, lastpos, pos, verify};
pub use stripping::strip;
