//! The top call: the words of a command line and the objects of the outside go in, a run of the machine comes out.
//!
//! `rexx_call` is all that the program does. Its contract is the headline.
#![tactic(auto)]

mod call;
mod checking;
mod conclusion;
mod digits;
mod feeding;
mod lines;
mod loading;
mod playing;
mod refusing;
mod report;
mod running;
mod telling;
mod top;
mod waits;
mod words;

pub use call::rexx_call;
pub use top::{Ended, rexx_plain};
pub use words::{Request, WordsRefused, read_words};
