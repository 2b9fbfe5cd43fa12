//! Tells of the sources in its standard input, a line each, how control goes through their code.
//!
//! Of `code` and a source it tells the ops of its flat code. Of `walk`, digits and a source it tells the lines of the clauses
//! that are done one after the other, but for those that only move control, and how that ends. Each test takes the next
//! digit, 1 where it holds, and each loop that is begun the next digit as the number of its turns. Of `steps`, a number and a
//! source it tells how many clauses are done in so many steps, where each test holds and no loop ends by itself. In sources `\n` and `\\`
//! are one byte, as in the language that this is written in. Any other line is a heading, and told as it stands.
#![tactic(auto)]

mod sources;
mod walk;

use crate::sources::flat_of;
use crate::walk::{tell_steps, tell_walk};
use rx_escape::unescape;
use rx_flow::{Flat, Op};
use std::alloc::{AllocError, Global};
use std::io;

// An op as text.
fn tell_op(alloc: Global, op: Op) -> Result<String, AllocError> {
    match op {
        Op::Clause(number) => format!(in alloc; "clause {number}"),
        Op::Test(number, otherwise) => format!(in alloc; "test {number} else {otherwise}"),
        Op::Jump(to) => format!(in alloc; "jump {to}"),
        Op::Header(number) => format!(in alloc; "header {number}"),
        Op::Turn(number, end) => format!(in alloc; "turn {number} end {end}"),
        Op::NoWhen(number) => format!(in alloc; "no when {number}"),
    }
}

// The ops of a body's code.
fn tell_code(alloc: Global, flat: &Flat) -> Result<String, AllocError> {
    let mut told = String::new(alloc);
    for op in flat.code().ops.as_slice() {
        if !told.is_empty() {
            told.push_str("; ")?;
        }
        told.push_str(tell_op(alloc, *op)?.as_str())?;
    }
    Ok(told)
}

// How many clauses are done in so many steps.
fn tell_most(alloc: Global, number: &str, source: &str) -> Result<String, AllocError> {
    let Ok(most) = number.parse::<u32>() else {
        return String::from_str(alloc, "no number");
    };
    let source = unescape(alloc, source.as_bytes())?;
    match flat_of(alloc, source.as_slice())? {
        Some(flat) => tell_steps(alloc, &flat, most),
        None => String::from_str(alloc, "no body"),
    }
}

// What a line of the input comes to.
fn tell(alloc: Global, line: &str) -> Result<String, AllocError> {
    if let Some(source) = line.strip_prefix("code ") {
        let source = unescape(alloc, source.as_bytes())?;
        return match flat_of(alloc, source.as_slice())? {
            Some(flat) => tell_code(alloc, &flat),
            None => String::from_str(alloc, "no body"),
        };
    }
    if let Some(case) = line.strip_prefix("walk ") {
        let Some((choices, source)) = case.split_once(' ') else {
            return String::from_str(alloc, "no case");
        };
        let source = unescape(alloc, source.as_bytes())?;
        return match flat_of(alloc, source.as_slice())? {
            Some(flat) => tell_walk(alloc, &flat, choices.as_bytes()),
            None => String::from_str(alloc, "no body"),
        };
    }
    if let Some(case) = line.strip_prefix("steps ") {
        return match case.split_once(' ') {
            Some((number, source)) => tell_most(alloc, number, source),
            None => String::from_str(alloc, "no case"),
        };
    }
    String::from_str(alloc, line)
}

fn main(rt: HostRuntime) -> io::Result<()> {
    for line in rt.lines(rt.alloc()) {
        let told = tell(rt.alloc(), line?.as_str())?;
        println!(rt; "{told}")?;
    }
    Ok(())
}
