//! Tells of the expressions in its standard input what each comes to, call by call.
//!
//! A line `eval` has an expression and, behind ` => `, the answers of its calls with a blank between each two: a text between
//! double quotes, or `#` and the number of an object. What is told is each call with how its answer is awaited, and at last
//! the value, the error, or the variable without a value; nothing more where the answers end. `string` is the same where a
//! string is wanted of the expression. `often 1000000` is `eval`, and evaluates the expression so many times before, with the
//! same answers. What is evaluated over is set by lines that are told as they stand: `digits 9`; `label F`;
//! `object .T 9`; `value A.1 "x"`; `novalue`; and `fresh`, which takes all of it back. In texts `\n`, `\r`, `\t` and `\\` are one
//! byte, as in the language that this is written in, and `\xFF` is the byte of that number. Any other line is a heading, and
//! told as it stands.
#![tactic(auto)]

mod evaluating;
mod setting;
mod telling;

use crate::evaluating::tell_expr;
use crate::setting::Settings;
use rx_tree::OutOfMemory;
use std::alloc::{AllocError, Global};
use std::io;

// What a line of the input comes to.
fn tell(alloc: Global, settings: &mut Settings, line: &str) -> Result<String, OutOfMemory> {
    if let Some(case) = line.strip_prefix("eval ") {
        return tell_expr(alloc, settings, case, false, 0);
    }
    if let Some(case) = line.strip_prefix("string ") {
        return tell_expr(alloc, settings, case, true, 0);
    }
    if let Some(case) = line.strip_prefix("often ") {
        let (times, case) = case.split_once(' ').unwrap_or(("0", case));
        let times = times.parse::<u32>().unwrap_or(0);
        return tell_expr(alloc, settings, case, false, times);
    }
    settings.set(alloc, line)?;
    Ok(String::from_str(alloc, line)?)
}

fn main(rt: HostRuntime) -> io::Result<()> {
    let mut settings = Settings::new(rt.alloc());
    for line in rt.lines(rt.alloc()) {
        let told = tell(rt.alloc(), &mut settings, line?.as_str()).map_err(|_| AllocError)?;
        println!(rt; "{told}")?;
    }
    Ok(())
}
