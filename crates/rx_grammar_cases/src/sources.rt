// What is read of the tokens of a source.
use crate::bodies::tell_body_at;
use crate::exprs::tell_expr_at;
use crate::packages::tell_package_at;
use rx_exprs::{DEEPEST, Stops};
use rx_scan::{LONGEST_SOURCE, ScanRefused, bracket_depth, scan};
use std::alloc::{AllocError, Global};

/// What a case asks for, each from the token of a place on.
#[derive(Clone, Copy)]
pub enum Wanted {
    /// The expression without these stop words.
    Expr(u32, Stops),
    /// The body, with its tree or without.
    Body(u32, bool),
    /// The main body and what the directives make.
    Package,
}

/// What is asked for of a source as text, or why there is none.
pub fn tell_source(alloc: Global, source: &[u8], wanted: Wanted) -> Result<String, AllocError> {
    if source.len() > LONGEST_SOURCE {
        return format!(in alloc; "too long");
    }
    let tokens = match scan(alloc, source) {
        Ok(tokens) => tokens,
        Err(ScanRefused::Bad { line, number }) => {
            return format!(in alloc; "line {line} error {number}");
        }
        Err(ScanRefused::OutOfMemory) => return Err(AllocError),
    };
    if bracket_depth(tokens.as_slice()) > DEEPEST {
        return format!(in alloc; "too deep");
    }
    match wanted {
        Wanted::Expr(from, stops) => tell_expr_at(alloc, tokens.as_slice(), from, stops),
        Wanted::Body(from, whole) => tell_body_at(alloc, tokens.as_slice(), from, whole),
        Wanted::Package => tell_package_at(alloc, tokens.as_slice()),
    }
}
