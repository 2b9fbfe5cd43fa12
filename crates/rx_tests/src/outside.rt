// Assertions on the outside, through its traits.
use rx_ports::{Accepted, Fetched, Shelf, Sink, Source, Stored, Taken};
use std::alloc::Global;
use std::process::Abort;

/// A name's first bytes are these, or fetching fails.
pub fn assert_fetches(
    rt: &impl Abort,
    alloc: Global,
    shelf: &mut impl Shelf,
    name: &[u8],
    want: Option<&[u8]>,
) {
    match (shelf.fetch(alloc, name, 3), want) {
        (Fetched::Bytes(bytes), Some(want)) => assert!(rt; bytes.as_slice() == want),
        (Fetched::Failed, None) => {}
        _ => panic!(rt; "fetched otherwise"),
    }
}

/// Storing bytes under a name ends so.
pub fn assert_stores(
    rt: &impl Abort,
    alloc: Global,
    shelf: &mut impl Shelf,
    name: &[u8],
    bytes: &[u8],
    want: Stored,
) {
    assert!(rt; shelf.store(alloc, name, bytes) == want);
}

/// The next two bytes of an input, or fewer, are these; or it is at its end.
pub fn assert_takes(rt: &impl Abort, alloc: Global, source: &mut impl Source, want: Option<&[u8]>) {
    match (source.take(alloc, 2), want) {
        (Taken::Bytes(bytes), Some(want)) => assert!(rt; bytes.as_slice() == want),
        (Taken::End, None) => {}
        _ => panic!(rt; "taken otherwise"),
    }
}

/// Putting bytes ends so.
pub fn assert_puts(rt: &impl Abort, sink: &mut impl Sink, bytes: &[u8], want: Accepted) {
    assert!(rt; sink.put(bytes) == want);
}
