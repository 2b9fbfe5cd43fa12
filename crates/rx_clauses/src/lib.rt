//! The parser of clauses and bodies: a body exactly where one fits the tokens.
#![tactic(auto)]

mod assignments;
mod blocks;
mod bodies;
mod forwards;
mod keyword;
mod laws;
mod loops;
mod names;
mod numbers;
mod parser;
mod parts;
mod plain;
mod simple;
mod start;
mod templates;
mod tokens;
mod traps;

pub use bodies::MOST_BLOCKS;
pub use keyword::{Keyword, Word};
pub use laws::clause_laws;
pub use parser::{parse_clauses, read_body};
pub use start::Start;
pub use tokens::{eat_end, eat_word, is_word, to_end, variable_of};
