//! Templates: how PARSE, ARG and PULL cut a text into pieces, exactly by positions.
//!
//! A template is a list of targets and triggers. A trigger, a string or a position, ends a section of the text, and the
//! targets in front of it share that section: each but the last takes a word, and the last takes what is left. A call takes
//! time in proportion to the template, to the bytes that its strings are sought in, and to the pieces.
#![tactic(auto)]

mod pieces;
mod section;
mod sharing;
mod template;

pub use pieces::{Pieces, parse};
pub use rx_text::OutOfMemory;
pub use template::{TPart, Template};
