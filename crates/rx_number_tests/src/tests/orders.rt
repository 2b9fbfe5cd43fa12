// The orders of two texts, and stripping.
use rx_text::{compare_padded, compare_strict, strip, strip_front};
use std::cmp::Ordering::{self, Equal, Greater, Less};
use std::process::Abort;

// Two texts are in this order by their bytes, and the other way round in the other.
fn assert_strict(rt: &impl Abort, a: &[u8], b: &[u8], want: Ordering) {
    assert!(rt; compare_strict(a, b) == want);
    assert!(rt; compare_strict(b, a) == want.reverse());
}

// Two texts are in this order where they are padded, and the other way round in the other.
fn assert_padded(rt: &impl Abort, a: &[u8], b: &[u8], want: Ordering) {
    assert!(rt; compare_padded(a, b) == want);
    assert!(rt; compare_padded(b, a) == want.reverse());
}

// A text without its leading blanks, and without its outer blanks.
fn assert_stripped(rt: &impl Abort, text: &[u8], behind_front: &[u8], inner: &[u8]) {
    assert!(rt; strip_front(text) == behind_front);
    assert!(rt; strip(text) == inner);
}

#[test]
fn orders_texts_by_bytes(rt: HostRuntime) {
    let cases: [(&[u8], &[u8], Ordering); 10] = [
        (b"", b"", Equal),
        (b"", b"a", Less),
        (b"ab", b"abc", Less),
        (b"abc", b"ab", Greater),
        (b"abc", b"abd", Less),
        (b"b", b"abc", Greater),
        (b"a", b"a ", Less),
        (b" a", b"a", Less),
        (b"\xff", b"~", Greater),
        (b"abc", b"abc", Equal),
    ];
    for (a, b, want) in cases {
        assert_strict(&rt, a, b, want);
    }
}

#[test]
fn orders_texts_with_padding(rt: HostRuntime) {
    let cases: [(&[u8], &[u8], Ordering); 17] = [
        (b"", b"", Equal),
        (b"", b" \t ", Equal),
        (b"a", b"a   ", Equal),
        (b" \ta\t", b"a", Equal),
        (b"a", b"ab", Less),
        (b"b", b"ab", Greater),
        (b"abc", b"abd", Less),
        (b"a", b"a\x01", Greater),
        (b"a", b"a\x1f\xff", Greater),
        (b"a", b"a!", Less),
        (b"", b"\x01", Greater),
        (b"", b"!", Less),
        (b"a\tb", b"a b", Less),
        (b"x y", b"x  y", Greater),
        (b"x", b"x  \x01", Greater),
        (b"x", b"x  z", Less),
        (b"\x00", b"", Less),
    ];
    for (a, b, want) in cases {
        assert_padded(&rt, a, b, want);
    }
}

#[test]
fn strips_blanks(rt: HostRuntime) {
    let cases: [(&[u8], &[u8], &[u8]); 6] = [
        (b"", b"", b""),
        (b"\t \t", b"", b""),
        (b"  a b\t ", b"a b\t ", b"a b"),
        (b"a", b"a", b"a"),
        (b"\na ", b"\na ", b"\na"),
        (b" \0 ", b"\0 ", b"\0"),
    ];
    for (text, behind_front, inner) in cases {
        assert_stripped(&rt, text, behind_front, inner);
    }
}
