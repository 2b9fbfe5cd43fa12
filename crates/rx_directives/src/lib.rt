//! The parser of directives, and what they make.
#![tactic(auto)]

mod bodies;
mod classes;
mod directive;
mod heads;
mod laws;
mod names;
mod numbers;
mod options;
mod parser;
mod reading;
mod words;

pub use bodies::bodies_of;
pub use classes::{classes_of, routines_of};
pub use directive::{
    Access, AttributeName, ClassHead, Directive, DirectiveKind, Guarding, Options, Superclass,
    Visibility,
};
pub use laws::directive_laws;
pub use parser::parse_directives;
