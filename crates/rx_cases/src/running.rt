// Calls of the interpreter over a file of a shelf in memory.
use rx_escape::escape;
use rx_ports::{FreeGate, MemShelf, MemSink, SureSource};
use rx_top::{Ended, rexx_call};
use std::alloc::{AllocError, Global};
use std::sync::Wait;
use std::thread::Threads;

/// What a call gives back.
pub type Call = Ended<MemShelf, SureSource, MemSink, MemSink>;

/// What came of a call, as text: the status, the number of steps, the output and the report.
pub fn tell_call(alloc: Global, call: &Call) -> Result<String, AllocError> {
    let output = escape(alloc, call.out.bytes())?;
    let report = escape(alloc, call.err.bytes())?;
    format!(in alloc; "{} {} <{output}> <{report}>", call.status, call.steps)
}

/// The activities that took the steps of a call, as text.
pub fn tell_picks(alloc: Global, call: &Call) -> Result<String, AllocError> {
    let mut text = String::new(alloc);
    for pick in &call.schedule {
        if !text.is_empty() {
            text.push(' ')?;
        }
        text.push_str(format!(in alloc; "{pick}")?.as_str())?;
    }
    Ok(text)
}

// The words of a line, with one blank before each.
fn words_of(alloc: Global, line: &str) -> Result<Vec<Vec<u8>>, AllocError> {
    let mut words = Vec::new(alloc);
    for word in line.split(' ').skip(1) {
        words.push(word.as_bytes().to_vec(alloc)?)?;
    }
    Ok(words)
}

/// What came of a call, as text: as `tell_call` has it, and what the input has left.
pub fn tell_left(alloc: Global, call: &Call) -> Result<String, AllocError> {
    let told = tell_call(alloc, call)?;
    let left = escape(alloc, call.input.left())?;
    format!(in alloc; "{told} <{left}>")
}

/// Calls the interpreter with these words, each with a blank before it, over no input. The shelf has one file, `case`, with this
/// source.
pub fn call(
    rt: &(impl Threads + Wait + Sync + AllocGlobal),
    words: &str,
    source: Vec<u8>,
) -> Result<Call, AllocError> {
    call_over(rt, words, source, Vec::new(rt.alloc()))
}

/// The same over an input.
pub fn call_over(
    rt: &(impl Threads + Wait + Sync + AllocGlobal),
    words: &str,
    source: Vec<u8>,
    input: Vec<u8>,
) -> Result<Call, AllocError> {
    let alloc = rt.alloc();
    let mut files = Vec::new(alloc);
    files.push((b"case".to_vec(alloc)?, source))?;
    let words = words_of(alloc, words)?;
    Ok(rexx_call(
        rt,
        alloc,
        words,
        MemShelf::new(files, Vec::new(alloc)),
        SureSource::new(input),
        MemSink::new(alloc, Vec::new(alloc), 0),
        MemSink::new(alloc, Vec::new(alloc), 0),
        &FreeGate {},
    ))
}
