// The adapters, over files of the folder that the test runs in and over readers and writers in memory.
use crate::outside::{assert_fetches, assert_puts, assert_stores, assert_takes};
use rx_ports::{Accepted, DirShelf, StdErr, StdOut, StdSource, Stored};
use std::fs;
use std::test::Fail;

#[test]
fn a_file_is_stored_fetched_and_replaced(rt: HostRuntime) -> Result<(), Fail> {
    let alloc = rt.alloc();
    let mut shelf = DirShelf::new(&rt);
    assert_fetches(&rt, alloc, &mut shelf, b"no.txt", None);
    assert_stores(&rt, alloc, &mut shelf, b"a.txt", b"older", Stored::Done);
    assert_stores(&rt, alloc, &mut shelf, b"a.txt", b"newer", Stored::Done);
    assert_fetches(&rt, alloc, &mut shelf, b"a.txt", Some(b"new"));
    assert!(rt; fs::read_to_string(&rt, "a.txt")?.as_str() == "newer");
    fs::remove_file(&rt, "a.txt")?;
    Ok(())
}

#[test]
fn a_folder_is_no_file(rt: HostRuntime) -> Result<(), Fail> {
    let alloc = rt.alloc();
    let mut shelf = DirShelf::new(&rt);
    assert_fetches(&rt, alloc, &mut shelf, b".", None);
    assert_stores(
        &rt,
        alloc,
        &mut shelf,
        b"nosuch/a.txt",
        b"a",
        Stored::Failed,
    );
    assert_fetches(&rt, alloc, &mut shelf, b"\xff", None);
    Ok(())
}

#[test]
fn a_reader_is_taken_to_its_end(rt: HostRuntime) -> Result<(), Fail> {
    let alloc = rt.alloc();
    let mut source = StdSource::new(b"abc".as_slice());
    assert_takes(&rt, alloc, &mut source, Some(b"ab"));
    assert_takes(&rt, alloc, &mut source, Some(b"c"));
    assert_takes(&rt, alloc, &mut source, None);
    Ok(())
}

#[test]
fn writers_get_what_is_put(rt: HostRuntime) -> Result<(), Fail> {
    let mut written = Vec::new(rt.alloc());
    let mut out = StdOut::new(&mut written);
    assert_puts(&rt, &mut out, b"ab", Accepted::All);
    assert_puts(&rt, &mut out, b"c", Accepted::All);
    drop(out);
    assert!(rt; written.as_slice() == b"abc".as_slice());
    let mut err = StdErr::new(rt.stderr());
    assert_puts(&rt, &mut err, b"", Accepted::All);
    Ok(())
}
