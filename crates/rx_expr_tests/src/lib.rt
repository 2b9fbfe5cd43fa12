//! Tests of the parser of expressions and of their trees: the longest and the deepest sources, and calls with ample memory.
#![tactic(auto)]

#[cfg(test)]
mod long;
#[cfg(test)]
mod parsing;
#[cfg(test)]
mod shares;
