//! The values of a program and the trees of its expressions, and the small parts of activities, frames and objects.
//!
//! A tree is plain data: contracts see a text as its bytes and a list as a list. What an object holds stands in
//! `specs/Object.antt` alone.
#![tactic(auto)]

mod activity;
mod class;
mod crossing;
mod equality;
mod expr;
mod name;
mod nesting;
mod note;
mod shared;
mod steps;
mod stops;
mod text;
mod token;
mod value;

pub use activity::{Awaited, Caught, Condition, FrameKind, Outcome, TraceSetting};
pub use class::{ClassDef, MethodDef, Scope};
pub use crossing::{
    arguments_cross, caught_crosses, derived_crosses, expr_crosses, note_crosses, outcome_crosses,
    text_crosses, token_crosses, value_crosses,
};
pub use expr::{Expr, SendPart};
pub use name::{Derived, Name, Part, Place};
pub use note::Note;
pub use shared::Shared;
pub use steps::Steps;
pub use stops::Stops;
pub use text::{OutOfMemory, Text};
pub use token::{Oper, Token, TokenKind};
pub use value::Value;
