//! Tells of the calls of built-in functions in its standard input, a line each, what comes of them.
//!
//! A line is the name of a function and its arguments, with a blank between each two. A text stands between double quotes,
//! and `*3` directly behind it says that it stands there three times; a number stands as it is, and `-` for an argument
//! that is left out. In texts `\n`, `\r`, `\t` and `\\` are one byte, as in the language that this is written in, and `\xFF`
//! is the byte of that number. An empty line and one that begins with `#` are headings, and told as they stand.
//!
//! A name in small letters is that of a function of `rx_cutfn`, `rx_wordfn` or `rx_convfn`. One in capitals is called by
//! name, as a program calls it: each argument is a text, also where it is written as a number. What such calls read besides
//! is set by lines that are told as they stand: `digits 9`; `queued 2`; `lines` with the texts of the source's lines;
//! `arguments` with those of the frame, where a number is the object of that number; `trapped` with a condition's name, its
//! detail, and `"CALL"` or `"SIGNAL"`, or with nothing.
#![tactic(auto)]

mod answer;
mod argument;
mod calls;
mod conversions;
mod positions;
mod words;

use crate::answer::Answer;
use crate::argument::Arguments;
use rx_builtin::Facts;
use std::alloc::{AllocError, Global};
use std::io;

// What a call of a function of its crate comes to: the first family of functions that knows the name tells.
fn call_itself(alloc: Global, name: &str, arguments: &Arguments) -> Result<Answer, AllocError> {
    let on_positions = positions::call(alloc, name, arguments)?;
    if !on_positions.is_unknown() {
        return Ok(on_positions);
    }
    let on_words = words::call(alloc, name, arguments)?;
    if !on_words.is_unknown() {
        return Ok(on_words);
    }
    conversions::call(alloc, name, arguments)
}

// What a line of the input comes to.
fn tell(alloc: Global, facts: &mut Facts, line: &str) -> Result<String, AllocError> {
    if line.is_empty() || line.starts_with('#') {
        return String::from_str(alloc, line);
    }
    let (name, rest) = line.split_once(' ').unwrap_or((line, ""));
    let arguments = Arguments::read(alloc, rest)?;
    if calls::set(alloc, facts, name, &arguments)? {
        return String::from_str(alloc, line);
    }
    if name.starts_with(|letter: char| letter.is_ascii_uppercase()) {
        return calls::call(alloc, name, &arguments, facts)?.told(alloc);
    }
    call_itself(alloc, name, &arguments)?.told(alloc)
}

fn main(rt: HostRuntime) -> io::Result<()> {
    let mut facts = calls::first_facts(rt.alloc())?;
    for line in rt.lines(rt.alloc()) {
        let told = tell(rt.alloc(), &mut facts, line?.as_str())?;
        println!(rt; "{told}")?;
    }
    Ok(())
}
