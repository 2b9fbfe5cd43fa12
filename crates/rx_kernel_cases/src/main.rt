//! Runs the programs of its standard input, a line each, on the kernel of the whole language, with the activities one after
//! another in a circle, and tells what comes of them.
//!
//! Of `run` and a source it tells how the run ended, its number of steps, the output and the report; of `read LINE run` and a
//! source the same with this line of input. In sources and answers `\n`, `\r`, `\t` and `\\` are one byte, as in the language
//! that this is written in, and `\xFF` is the byte of that number. A run has 1,000 steps. Any other line is a heading, and
//! told as it stands.
#![tactic(auto)]

mod running;
mod showing;

use crate::running::tell_run;
use rx_escape::unescape;
use std::alloc::{AllocError, Global};
use std::io;

// What a source comes to with this line of input, or with none.
fn tell_source(alloc: Global, source: &str, line: Option<&str>) -> Result<String, AllocError> {
    let source = unescape(alloc, source.as_bytes())?;
    let Some(line) = line else {
        return tell_run(alloc, source.as_slice(), None);
    };
    let line = unescape(alloc, line.as_bytes())?;
    tell_run(alloc, source.as_slice(), Some(line.as_slice()))
}

// What a line of the input comes to.
fn tell(alloc: Global, line: &str) -> Result<String, AllocError> {
    if let Some(source) = line.strip_prefix("run ") {
        return tell_source(alloc, source, None);
    }
    if let Some(rest) = line.strip_prefix("read ") {
        if let Some((given, source)) = rest.split_once(" run ") {
            return tell_source(alloc, source, Some(given));
        }
    }
    String::from_str(alloc, line)
}

fn main(rt: HostRuntime) -> io::Result<()> {
    for line in rt.lines(rt.alloc()) {
        let told = tell(rt.alloc(), line?.as_str())?;
        println!(rt; "{told}")?;
    }
    Ok(())
}
