//! The built-in functions that convert, each exactly its definition on lists: C2X, X2C, X2B, B2X, C2D, X2D, D2C, D2X and
//! XRANGE; and DATATYPE.
//!
//! Hexadecimal and binary digits may stand in groups with blanks between them, by the rules of hexadecimal and binary
//! strings. An argument outside its range is refused with 40, and else a value of more than 16,777,216 bytes with 5, before
//! any of it is built. A call that gives a number takes no memory. Each call takes time in proportion to its text.
#![tactic(auto)]

mod bytes;
mod digits;
mod kinds;
mod numbers;

pub use bytes::{d2c, d2x, xrange};
pub use digits::{b2x, c2x, x2b, x2c};
pub use kinds::datatype;
pub use numbers::{c2d, x2d};
pub use rx_answers::{Bytes, INCORRECT_CALL, LONGEST, Number, RESOURCES_EXHAUSTED, Refused};
