// The limits of a source and of a string.
use crate::calls::{assert_ended, assert_told, run};
use std::alloc::{AllocError, Global};
use std::test::Fail;

#[test]
fn a_source_has_at_most_4_mebibytes(rt: HostRuntime) -> Result<(), Fail> {
    let mut source = Vec::new(rt.alloc());
    source.resize(4_194_304, b' ')?;
    assert_ended(&rt, &run(&rt, source.as_slice())?, 0, 0, 1);
    source.push(b' ')?;
    assert_told(
        &rt,
        &run(&rt, source.as_slice())?,
        250,
        b"",
        b"REX250 source\n",
    );
    Ok(())
}

// A string of one byte, doubled so often, and then a clause that says `big`.
fn doublings(alloc: Global, count: usize) -> Result<Vec<u8>, AllocError> {
    let mut source = b"a = 'x'\n".to_vec(alloc)?;
    for _ in 0..count {
        source.extend_from_slice(b"a = a || a\n")?;
    }
    source.extend_from_slice(b"say 'big'")?;
    Ok(source)
}

#[test]
fn a_string_has_at_most_16_mebibytes(rt: HostRuntime) -> Result<(), Fail> {
    let within = doublings(rt.alloc(), 24)?;
    assert_told(&rt, &run(&rt, within.as_slice())?, 0, b"big\n", b"");
    let past = doublings(rt.alloc(), 25)?;
    assert_told(
        &rt,
        &run(&rt, past.as_slice())?,
        249,
        b"",
        b"REX005 line 26 activity 1\n",
    );
    Ok(())
}
