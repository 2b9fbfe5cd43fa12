//! The kernel of the activity machine on the whole language: the state of a run as flat code, frames and objects, and what
//! each kind of step does to it. Its contracts speak of the world for which a state stands.
#![tactic(auto)]

mod assigning;
mod binding;
mod cutting;
mod ending;
mod evaluating;
mod exposing;
mod finishing;
mod first;
mod halting;
mod input;
mod kernel;
mod laws;
mod lines;
mod looking;
mod main_end;
mod next;
mod onward;
mod opening;
mod parsing;
mod picking;
mod raising;
mod saying;
mod sending;
mod settling;
mod state;
mod status;
mod stepped;
mod stepping;
mod taking_lines;
mod texts;
mod turning;
mod using;
mod waiting;

pub use kernel::Kernel;
pub use laws::view_laws;
pub use stepped::Stepped;
