//! The evaluation of expressions, by postfix code.
//!
//! An expression comes to a value, to an error, to a variable without a value, or to its first call, from left to right and
//! from the inside out. Postfix code comes to what its trees come to, also from a place in its middle, where the values of what
//! was evaluated stand: so a call leaves a place and values, and its answer goes on from there. No tree is copied or rewritten.
#![tactic(auto)]

mod appending;
mod building;
mod call;
mod calling;
mod code;
mod computing;
mod crossing;
mod facts;
mod job;
mod laws;
mod listing;
mod machine;
mod names;
mod naming;
mod operating;
mod paused;
mod pile;
mod postfix;
mod reading;
mod reads;
mod ready;
mod sending;
mod step;
mod whole;

pub use call::{Pending, Sent};
pub use code::{Callee, Calling, Class, Form, Instr, Sending};
pub use computing::Computed;
pub use crossing::{answer_crosses, body_crosses, job_crosses};
pub use facts::{Body, Facts};
pub use job::{Answer, Job, compute, put_answer};
pub use laws::evaluation_laws;
pub use paused::Paused;
pub use postfix::Postfix;
pub use reads::Reads;
pub use ready::{Reached, Ready};
pub use whole::is_whole;
