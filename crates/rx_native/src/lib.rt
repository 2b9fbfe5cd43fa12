//! The native methods: what each answers to a receiver and its arguments, and what it does to the objects.
//!
//! What a method comes to stands in `specs/`, an equation a method, a file a class: its answer with the objects afterwards, or
//! the error that it raises, and then nothing has changed. The methods of Message aren't here yet.
#![tactic(auto)]

mod answer;
mod argument;
mod array;
mod calling;
mod class;
mod directory;
mod making;
mod method;
mod object;
mod queue;
mod starting;
mod string;
mod target;

pub use answer::{Began, NativeAnswer, NativeRefused};
pub use calling::{call, is_built};
pub use target::target_scope;
