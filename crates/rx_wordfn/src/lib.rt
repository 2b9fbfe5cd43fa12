//! The built-in functions on words, each exactly its definition on lists: WORDS, WORD, WORDINDEX, WORDLENGTH, WORDPOS,
//! SUBWORD, DELWORD and SPACE.
//!
//! A word is a run of bytes without blanks, as long as it can be. Words and places are counted from 1. A word's number that is
//! 0 is refused with 40, and else a value of more than 16,777,216 bytes with 5, before any of it is built. A call that gives a
//! number takes no memory, but for WORDPOS. Each call takes time in proportion to its texts and its value.
#![tactic(auto)]

mod answer;
mod cursor;
mod parts;
mod rows;
mod spacing;

pub use parts::{delword, subword, word, wordindex, wordlength, words};
pub use rows::wordpos;
pub use rx_answers::{Bytes, INCORRECT_CALL, LONGEST, Number, RESOURCES_EXHAUSTED, Refused};
pub use spacing::space;
