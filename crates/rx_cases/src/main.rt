//! Tells of the cases of its standard input, a line each, what comes of them.
//!
//! Of `run` and a source it tells the status, the number of steps, the output and the report, of `check` and a source the
//! same of a check, and of `picks` and a source which activities took the steps. Of `over`, an input, ` run ` and a source it
//! tells the same as of `run` where the program has that input, and behind it what the input has left. Of `words` and the words
//! of a command line it tells the same as of `run`; the only file is `case`, which has `say 'Hello'`, and of `args` and words
//! the same where it has `parse arg a '|' b; say a || '.' || b`. In sources, inputs and answers `\n`, `\r`, `\t`
//! and `\\` are one byte, as in the language that this is written in, and `\xFF` is the byte of that number. Any other line
//! is a heading, and told as it stands.
#![tactic(auto)]

mod running;

use crate::running::{call, call_over, tell_call, tell_left, tell_picks};
use rx_escape::unescape;
use std::alloc::AllocError;
use std::io;
use std::sync::Wait;
use std::thread::Threads;

// What a source comes to over an input, which stands before ` run `.
fn tell_over(
    rt: &(impl Threads + Wait + Sync + AllocGlobal),
    case: &str,
) -> Result<String, AllocError> {
    let alloc = rt.alloc();
    let Some((input, source)) = case.split_once(" run ") else {
        return String::from_str(alloc, "no case");
    };
    let input = unescape(alloc, input.as_bytes())?;
    let source = unescape(alloc, source.as_bytes())?;
    tell_left(alloc, &call_over(rt, " run case", source, input)?)
}

// What a line of the input comes to.
fn tell(rt: &(impl Threads + Wait + Sync + AllocGlobal), line: &str) -> Result<String, AllocError> {
    let alloc = rt.alloc();
    if let Some(source) = line.strip_prefix("run ") {
        let source = unescape(alloc, source.as_bytes())?;
        return tell_call(alloc, &call(rt, " run case", source)?);
    }
    if let Some(case) = line.strip_prefix("over ") {
        return tell_over(rt, case);
    }
    if let Some(source) = line.strip_prefix("check ") {
        let source = unescape(alloc, source.as_bytes())?;
        return tell_call(alloc, &call(rt, " check case", source)?);
    }
    if let Some(source) = line.strip_prefix("picks ") {
        let source = unescape(alloc, source.as_bytes())?;
        return tell_picks(alloc, &call(rt, " run case", source)?);
    }
    if let Some(words) = line.strip_prefix("words") {
        let source = b"say 'Hello'".to_vec(alloc)?;
        return tell_call(alloc, &call(rt, words, source)?);
    }
    if let Some(words) = line.strip_prefix("args") {
        let source = b"parse arg a '|' b; say a || '.' || b".to_vec(alloc)?;
        return tell_call(alloc, &call(rt, words, source)?);
    }
    String::from_str(alloc, line)
}

fn main(rt: HostRuntime) -> io::Result<()> {
    for line in rt.lines(rt.alloc()) {
        let told = tell(&rt, line?.as_str())?;
        println!(rt; "{told}")?;
    }
    Ok(())
}
