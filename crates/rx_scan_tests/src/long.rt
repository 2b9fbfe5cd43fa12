// Sources of 4 MiB, each of which is read in one go.
use rx_scan::{LONGEST_SOURCE, ScanRefused, scan};
use std::alloc::{AllocError, Global};
use std::process::Abort;
use std::test::Fail;

// A source of the greatest length: a front, as many of some bytes as fit, and an end.
fn filled(alloc: Global, front: &[u8], unit: &[u8], end: &[u8]) -> Result<Vec<u8>, AllocError> {
    let mut source = Vec::from_slice(alloc, front)?;
    for _ in 0..LONGEST_SOURCE {
        if LONGEST_SOURCE.saturating_sub(source.len()) < unit.len().saturating_add(end.len()) {
            break;
        }
        source.extend_from_slice(unit)?;
    }
    source.extend_from_slice(end)?;
    Ok(source)
}

// A source has so many tokens, or is refused with this number.
fn assert_scans(
    alloc: Global,
    rt: &impl Abort,
    source: &[u8],
    want: usize,
) -> Result<(), AllocError> {
    assert!(rt; source.len() <= LONGEST_SOURCE);
    match scan(alloc, source) {
        Ok(tokens) => assert!(rt; tokens.len() == want),
        Err(ScanRefused::Bad { number, .. }) => assert!(rt; number as usize == want),
        Err(ScanRefused::OutOfMemory) => return Err(AllocError),
    }
    Ok(())
}

#[test]
fn long_sources_are_read(rt: HostRuntime) -> Result<(), Fail> {
    let alloc = rt.alloc();
    let cases: [(&[u8], &[u8], &[u8], usize); 8] = [
        (b"/*", b"-", b"*/", 0),
        (b"'", b"a", b"'", 2),
        (b"", b"a", b"", 2),
        (b"", b"/*", b"", 6),
        (b"", b"\n", b"", 0),
        (b"", b" ", b"", 0),
        (b"", b",/**/", b"", 838_860),
        (b"'", b"a", b"", 6),
    ];
    for (front, unit, end, want) in cases {
        let source = filled(alloc, front, unit, end)?;
        assert_scans(alloc, &rt, source.as_slice(), want)?;
    }
    Ok(())
}
