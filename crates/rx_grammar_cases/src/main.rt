//! Tells of the cases of its standard input, a line each, how the grammar reads them.
//!
//! Of `scan` and a source it tells how deep its brackets are and its tokens, or the line and number of its refusal. Of
//! `expr`, the name of a set of stop words, the place of a token and a source it tells the expression that begins there and
//! where it ends, or the number and place of its refusal; of `body`, the place of a token and a source the same of the body
//! that begins there; of `package` and a source its main body and the bodies, classes and routines that its directives make,
//! or the number and place of its refusal; of `check` and a source whether it is a program, or the line and number of its
//! refusal. In sources and answers `\n`, `\r`, `\t` and `\\` are one byte, as in the language
//! that this is written in, and `\xFF` is the byte of that number. Of `deep`, a number, and two texts between bars it tells
//! the body of a source that has the first so many times, and then the second so many times, without its tree. Any other
//! line is a heading, and told as it stands.
#![tactic(auto)]

mod bodies;
mod checks;
mod exprs;
mod instructions;
mod packages;
mod sources;
mod tokens;

use crate::bodies::{tell_body, tell_deep};
use crate::checks::tell_check;
use crate::exprs::tell_expr;
use crate::packages::tell_package;
use crate::tokens::tell_scan;
use rx_escape::unescape;
use std::alloc::{AllocError, Global};
use std::io;

// What a line of the input comes to.
fn tell(alloc: Global, line: &str) -> Result<String, AllocError> {
    if let Some(source) = line.strip_prefix("scan ") {
        return tell_scan(alloc, unescape(alloc, source.as_bytes())?.as_slice());
    }
    if let Some(case) = line.strip_prefix("expr ") {
        return tell_expr(alloc, case);
    }
    if let Some(case) = line.strip_prefix("body ") {
        return tell_body(alloc, case);
    }
    if let Some(source) = line.strip_prefix("package ") {
        return tell_package(alloc, source);
    }
    if let Some(source) = line.strip_prefix("check ") {
        return tell_check(alloc, source);
    }
    if let Some(case) = line.strip_prefix("deep ") {
        return tell_deep(alloc, case);
    }
    String::from_str(alloc, line)
}

fn main(rt: HostRuntime) -> io::Result<()> {
    for line in rt.lines(rt.alloc()) {
        let told = tell(rt.alloc(), line?.as_str())?;
        println!(rt; "{told}")?;
    }
    Ok(())
}
