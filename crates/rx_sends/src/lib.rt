//! What becomes of a message: the method that it reaches, and what that does to the frames, the objects and the pools.
//!
//! What a message comes to stands in `specs/` as data: which method it reaches (`Reaching`), and what its sender has then
//! (`Delivering`): a value or none, a method of the package that is begun, an activity that is begun, or an error. One word
//! (`Sending`) turns that into the next frames, objects and pools.
#![tactic(auto)]

mod answering;
mod call;
mod calling;
mod delivering;
mod laws;
mod making;
mod native;
mod parts;
mod reaching;
mod refused;
mod reply;
mod sender;
mod sending;
mod unknown;

pub use laws::sending_laws;
pub use parts::{Parts, Sent, parts_cross};
pub use refused::SendRefused;
pub use sending::{forward, send};
