//! The parser of expressions: a tree exactly where one fits the tokens.
#![tactic(auto)]

mod cursor;
mod laws;
mod operators;
mod parser;
mod refused;
mod trees;
mod words;

pub use cursor::Cursor;
pub use laws::expression_laws;
pub use parser::{DEEPEST, parse_expr, read_args, read_expr, read_term};
pub use refused::{Fault, ParseRefused, Refused};
pub use rx_tree::Stops;
pub use words::name_of;
