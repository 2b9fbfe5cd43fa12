// Calls of the texts' crate, with ample memory.
use rx_text::{strip, upper};
use std::test::Fail;

#[test]
fn letters_get_upper_case(rt: HostRuntime) -> Result<(), Fail> {
    match upper(rt.alloc(), b"aZ_9\xe4") {
        Ok(found) => assert!(rt; found.as_slice() == b"AZ_9\xe4".as_slice()),
        Err(_) => panic!(rt; "out of memory"),
    }
    assert!(rt; strip(b" \ta b\t") == b"a b".as_slice());
    Ok(())
}
