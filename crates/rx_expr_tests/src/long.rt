// Sources of nearly 4 MiB, each one expression, which is read in one go.
use crate::parsing::parse;
use rx_exprs::{DEEPEST, ParseRefused};
use std::alloc::{AllocError, Global};
use std::process::Abort;
use std::test::Fail;

// Where the expression of a source ends, or the place of its refusal.
fn end_of(alloc: Global, rt: &impl Abort, source: &[u8]) -> Result<u32, AllocError> {
    match parse(alloc, rt, source) {
        Ok((_, end)) => Ok(end),
        Err(ParseRefused::Bad { at, .. }) => Ok(at),
        Err(ParseRefused::OutOfMemory) => Err(AllocError),
    }
}

#[test]
fn long_expressions_are_read(rt: HostRuntime) -> Result<(), Fail> {
    let alloc = rt.alloc();
    let cases: [(&[u8], usize, &[u8], u32); 8] = [
        (b"a+", 2_097_000, b"a", 4_194_001),
        (b"a ", 2_097_000, b"a", 2_097_001),
        (b"- ", 2_097_000, b"a", 2_097_001),
        (b"a~", 2_097_000, b"a", 4_194_001),
        (b"a[1]", 1_048_000, b"", 4_192_000),
        (b"f(a)-", 838_000, b"a", 4_190_001),
        (b"a,", 2_097_000, b"a", 1),
        (b"a+", 2_097_000, b"*", 4_194_000),
    ];
    for (unit, count, end, expected) in cases {
        let mut source = unit.repeat(alloc, count)?;
        source.extend_from_slice(end)?;
        assert_eq!(rt; end_of(alloc, &rt, source.as_slice())?, expected);
    }
    Ok(())
}

// As many brackets in one another as there may be, again and again.
#[test]
fn deep_expressions_are_read(rt: HostRuntime) -> Result<(), Fail> {
    let alloc = rt.alloc();
    let cases: [(&[u8], &[u8], usize, u32); 3] = [
        (b"(", b")", 8_000, 4_008_000),
        (b"f(", b")", 5_500, 4_130_500),
        (b"a[", b"]", 5_500, 4_130_500),
    ];
    for (open, close, count, expected) in cases {
        let mut unit = open.repeat(alloc, DEEPEST as usize)?;
        unit.extend_from_slice(b"a")?;
        unit.extend_from_slice(close.repeat(alloc, DEEPEST as usize)?.as_slice())?;
        let source = unit.as_slice().repeat(alloc, count)?;
        assert_eq!(rt; end_of(alloc, &rt, source.as_slice())?, expected);
    }
    Ok(())
}
