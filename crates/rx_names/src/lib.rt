//! Where the names of an activity's variables live, and what they stand for there.
//!
//! A name lives in the top frame, in a frame beneath it whose variables an internal routine shares or exposes, or in a pool of
//! an object's variables. Its value is that of its own row there, or else for a compound that of its stem's row there. A
//! frame that shares all variables of its caller costs nothing on the way down.
#![tactic(auto)]

mod home;
mod tail;
mod variables;

pub use home::{Home, home_of};
pub use rx_tree::OutOfMemory;
pub use tail::{NamesRefused, derive};
pub use variables::{set, value};
