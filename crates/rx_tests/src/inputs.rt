// Inputs: lines at their longest, and an input that fails.
ghost use Rattle.std.specs.Prelude.{None};

use rx_ports::{FreeGate, MemShelf, MemSink, Source, SureSource, Taken};
use rx_top::{Ended, rexx_call};
use std::alloc::{AllocError, Global};
use std::process::Abort;
use std::sync::Wait;
use std::test::Fail;
use std::thread::Threads;

// An input that can't be read.
#[derive(Drop)]
struct NoSource {
    faults: u64,
}

impl Source for NoSource {
    ghost left = { λ s. None };

    ghost faults = { λ s. s.faults };

    fn take(&mut self, _alloc: Global, _most: usize) -> Taken {
        self.faults = self.faults.saturating_add(1);
        Taken::Failed
    }
}

// `run case` of a source over an input.
fn run_over<I: Source + Send + Drop>(
    rt: &(impl Threads + Wait + Sync + AllocGlobal),
    source: &[u8],
    input: I,
) -> Result<Ended<MemShelf, I, MemSink, MemSink>, AllocError> {
    let alloc = rt.alloc();
    let mut files = Vec::new(alloc);
    files.push((b"case".to_vec(alloc)?, source.to_vec(alloc)?))?;
    let mut words = Vec::new(alloc);
    words.push(b"run".to_vec(alloc)?)?;
    words.push(b"case".to_vec(alloc)?)?;
    let shelf = MemShelf::new(files, Vec::new(alloc));
    let out = MemSink::new(alloc, Vec::new(alloc), 0);
    let err = MemSink::new(alloc, Vec::new(alloc), 0);
    Ok(rexx_call(rt, alloc, words, shelf, input, out, err, &FreeGate {}))
}

// What was told, and the status.
fn assert_over<I>(
    rt: &impl Abort,
    call: &Ended<MemShelf, I, MemSink, MemSink>,
    status: u8,
    output: &[u8],
    report: &[u8],
) {
    assert!(rt; call.status == status);
    assert!(rt; call.out.bytes() == output);
    assert!(rt; call.err.bytes() == report);
}

// So many letters, and what comes behind them.
fn letters(alloc: Global, count: usize, behind: &[u8]) -> Result<Vec<u8>, AllocError> {
    let mut bytes = Vec::new(alloc);
    bytes.resize(count, b'a')?;
    bytes.extend_from_slice(behind)?;
    Ok(bytes)
}

#[test]
fn a_line_is_cut_behind_its_1048576th_byte(rt: HostRuntime) -> Result<(), Fail> {
    let input = SureSource::new(letters(rt.alloc(), 1_048_577, b"\n")?);
    let ended = run_over(&rt, b"pull x\npull y\nsay x~length y~length", input)?;
    assert_over(&rt, &ended, 0, b"1048576 1\n", b"");
    let input = SureSource::new(letters(rt.alloc(), 1_048_576, b"\nb")?);
    let ended = run_over(
        &rt,
        b"pull x\npull y\npull z\nsay x~length y~length z",
        input,
    )?;
    assert_over(&rt, &ended, 0, b"1048576 0 B\n", b"");
    Ok(())
}

#[test]
fn an_input_that_fails_is_told_of_where_a_line_is_wanted(rt: HostRuntime) -> Result<(), Fail> {
    let ended = run_over(&rt, b"say 'a'\npull x\nsay 'b'", NoSource { faults: 0 })?;
    assert_over(&rt, &ended, 245, b"a\n", b"REX245 input\n");
    assert!(&rt; ended.steps == 1 && ended.schedule.as_slice() == [1].as_slice());
    let ended = run_over(
        &rt,
        b"say 'a'\npush 'q'\npull x\nsay x",
        NoSource { faults: 0 },
    )?;
    assert_over(&rt, &ended, 0, b"a\nQ\n", b"");
    Ok(())
}

#[test]
fn bytes_behind_the_lines_that_are_wanted_stay(rt: HostRuntime) -> Result<(), Fail> {
    let input = SureSource::new(b"one\ntwo\nthree".to_vec(rt.alloc())?);
    let ended = run_over(&rt, b"pull x\nsay x\nparse linein y\nsay y", input)?;
    assert_over(&rt, &ended, 0, b"ONE\ntwo\n", b"");
    assert!(&rt; ended.input.left() == b"three".as_slice());
    Ok(())
}
