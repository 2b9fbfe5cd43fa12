//! The trees of clauses and packages, and which tokens clauses and bodies are written with.
//!
//! A tree is plain data: contracts see a text as its bytes and a list as a list. The relation between tokens and trees
//! stands in `specs/`, a file a family of clauses: `Bodies.antt` has the whole.
#![tactic(auto)]

mod clause;
mod crossing;
mod instruction;
mod loops;
mod package;
mod simple;
mod template;

pub use clause::{Before, Body, Clause, ClauseKind, When};
pub use crossing::{
    body_crosses, clause_crosses, package_crosses, simple_crosses, template_crosses, trap_crosses,
};
pub use instruction::{
    Forward, Forwarded, Parameter, Routine, Trap, share_arguments, share_condition, share_given,
    share_names,
};
pub use loops::{Bound, Header, Test};
pub use package::Package;
pub use simple::Simple;
pub use template::{Distance, Parse, ParseFrom, Template, TemplatePart};
