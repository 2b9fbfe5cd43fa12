// The expression of a source.
use rx_exprs::{DEEPEST, ParseRefused, Stops, parse_expr};
use rx_scan::{LONGEST_SOURCE, bracket_depth, scan};
use rx_tree::Expr;
use std::alloc::Global;
use std::process::Abort;

/// The expression at the front of a source, and the place where it ends; or its refusal.
pub fn parse(alloc: Global, rt: &impl Abort, source: &[u8]) -> Result<(Expr, u32), ParseRefused> {
    assert!(rt; source.len() <= LONGEST_SOURCE);
    let Ok(tokens) = scan(alloc, source) else {
        panic!(rt; "no tokens");
    };
    assert!(rt; bracket_depth(tokens.as_slice()) <= DEEPEST);
    parse_expr(alloc, tokens.as_slice(), 0, Stops::Nothing)
}
