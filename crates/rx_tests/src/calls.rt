// Whole calls: words in, a status and what was told out.
use rx_ports::{FreeGate, MemShelf, MemSink, SureSource};
use rx_top::{Ended, rexx_call};
use std::alloc::{AllocError, Global};
use std::process::Abort;
use std::sync::Wait;
use std::test::Fail;
use std::thread::Threads;

/// What a call gives back.
pub type Call = Ended<MemShelf, SureSource, MemSink, MemSink>;

/// What was told, and the status.
pub fn assert_told(rt: &impl Abort, call: &Call, status: u8, output: &[u8], report: &[u8]) {
    assert!(rt; call.status == status);
    assert!(rt; call.out.bytes() == output);
    assert!(rt; call.err.bytes() == report);
}

/// The status, how many bytes were said and how many steps were taken.
pub fn assert_ended(rt: &impl Abort, call: &Call, status: u8, said: usize, steps: u64) {
    assert!(rt; call.status == status);
    assert!(rt; call.out.bytes().len() == said);
    assert!(rt; call.steps == steps);
}

// The outside of `run case`: the source of the file, and the numbers of the calls that are to fail.
#[derive(Drop)]
struct Outside<'a> {
    source: &'a [u8],
    shelf_fails: &'a [u64],
    out_fails: &'a [u64],
    err_fails: &'a [u64],
}

// `run case` over an outside. A failing put keeps the first two bytes.
fn call(
    rt: &(impl Threads + Wait + Sync + AllocGlobal),
    outside: &Outside,
) -> Result<Call, AllocError> {
    let alloc = rt.alloc();
    let mut files = Vec::new(alloc);
    files.push((b"case".to_vec(alloc)?, outside.source.to_vec(alloc)?))?;
    let mut words = Vec::new(alloc);
    words.push(b"run".to_vec(alloc)?)?;
    words.push(b"case".to_vec(alloc)?)?;
    let shelf = MemShelf::new(files, outside.shelf_fails.to_vec(alloc)?);
    let input = SureSource::new(Vec::new(alloc));
    let out = MemSink::new(alloc, outside.out_fails.to_vec(alloc)?, 2);
    let err = MemSink::new(alloc, outside.err_fails.to_vec(alloc)?, 2);
    Ok(rexx_call(rt, alloc, words, shelf, input, out, err, &FreeGate {}))
}

/// Runs a source, where nothing fails.
pub fn run(
    rt: &(impl Threads + Wait + Sync + AllocGlobal),
    source: &[u8],
) -> Result<Call, AllocError> {
    let outside = Outside {
        source,
        shelf_fails: &[],
        out_fails: &[],
        err_fails: &[],
    };
    call(rt, &outside)
}

#[test]
fn a_failing_shelf_is_told_of(rt: HostRuntime) -> Result<(), Fail> {
    let outside = Outside {
        source: b"say",
        shelf_fails: &[1],
        out_fails: &[],
        err_fails: &[],
    };
    assert_told(&rt, &call(&rt, &outside)?, 244, b"", b"REX244 shelf\n");
    Ok(())
}

#[test]
fn an_output_that_fails_keeps_its_first_bytes(rt: HostRuntime) -> Result<(), Fail> {
    let outside = Outside {
        source: b"say 'Hello'",
        shelf_fails: &[],
        out_fails: &[1],
        err_fails: &[],
    };
    assert_told(&rt, &call(&rt, &outside)?, 246, b"He", b"");
    Ok(())
}

#[test]
fn a_report_that_fails_is_told_by_the_status(rt: HostRuntime) -> Result<(), Fail> {
    let outside = Outside {
        source: b"says",
        shelf_fails: &[],
        out_fails: &[],
        err_fails: &[1],
    };
    assert_told(&rt, &call(&rt, &outside)?, 246, b"", b"RE");
    Ok(())
}

// So many lines `say`.
fn says(alloc: Global, lines: usize) -> Result<Vec<u8>, AllocError> {
    let mut source = Vec::new(alloc);
    for _ in 0..lines {
        source.extend_from_slice(b"say\n")?;
    }
    Ok(source)
}

#[test]
fn a_million_steps_are_the_budget(rt: HostRuntime) -> Result<(), Fail> {
    let within = says(rt.alloc(), 999_999)?;
    assert_ended(&rt, &run(&rt, within.as_slice())?, 0, 999_999, 1_000_000);
    let past = says(rt.alloc(), 1_000_000)?;
    assert_ended(&rt, &run(&rt, past.as_slice())?, 242, 1_000_000, 1_000_000);
    Ok(())
}
