// The objects of the outside that are in memory.
use crate::outside::{assert_fetches, assert_puts, assert_stores, assert_takes};
use rx_ports::{Accepted, FreeGate, Gate, MemShelf, MemSink, Stored, SureSink, SureSource};
use std::test::Fail;

#[test]
fn a_shelf_fetches_and_stores(rt: HostRuntime) -> Result<(), Fail> {
    let alloc = rt.alloc();
    let mut files = Vec::new(alloc);
    files.push((b"a".to_vec(alloc)?, b"first".to_vec(alloc)?))?;
    files.push((b"a".to_vec(alloc)?, b"second".to_vec(alloc)?))?;
    let mut shelf = MemShelf::new(files, [4].to_vec(alloc)?);
    assert_fetches(&rt, alloc, &mut shelf, b"a", Some(b"fir"));
    assert_fetches(&rt, alloc, &mut shelf, b"b", None);
    assert_stores(&rt, alloc, &mut shelf, b"b", b"new", Stored::Done);
    assert_stores(&rt, alloc, &mut shelf, b"b", b"newer", Stored::Failed);
    assert_stores(&rt, alloc, &mut shelf, b"a", b"third", Stored::Done);
    assert_fetches(&rt, alloc, &mut shelf, b"b", Some(b"new"));
    assert_fetches(&rt, alloc, &mut shelf, b"a", Some(b"thi"));
    Ok(())
}

#[test]
fn a_source_gives_its_bytes_and_then_its_end(rt: HostRuntime) -> Result<(), Fail> {
    let alloc = rt.alloc();
    let mut source = SureSource::new(b"abc".to_vec(alloc)?);
    assert_takes(&rt, alloc, &mut source, Some(b"ab"));
    assert!(rt; source.left() == b"c".as_slice());
    assert_takes(&rt, alloc, &mut source, Some(b"c"));
    assert_takes(&rt, alloc, &mut source, None);
    Ok(())
}

#[test]
fn sinks_accept_and_fail_where_told(rt: HostRuntime) -> Result<(), Fail> {
    let alloc = rt.alloc();
    let mut sure = SureSink::new(alloc);
    assert_puts(&rt, &mut sure, b"ab", Accepted::All);
    assert!(rt; sure.bytes() == b"ab".as_slice());
    let mut failing = MemSink::new(alloc, [2].to_vec(alloc)?, 1);
    assert_puts(&rt, &mut failing, b"ab", Accepted::All);
    assert_puts(&rt, &mut failing, b"cd", Accepted::Failed);
    assert_puts(&rt, &mut failing, b"ef", Accepted::All);
    assert!(rt; failing.bytes() == b"abcef".as_slice());
    FreeGate {}.computing(1);
    Ok(())
}
