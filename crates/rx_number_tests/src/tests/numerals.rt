// The number that a text says, and the text of a number.
use itoa::Buffer;
use rx_whole::Numeral::{self, Long, NoNumber, Whole};
use rx_whole::{number_text, read_number};
use std::process::Abort;

// A text is read so.
fn assert_reads(rt: &impl Abort, text: &str, want: Numeral) {
    assert_eq!(rt; read_number(text.as_bytes()), want);
}

// A number has this text.
fn assert_writes(rt: &impl Abort, number: i64, want: &str) {
    let mut buffer = Buffer::new();
    assert_eq!(rt; number_text(number, &mut buffer), want.as_bytes());
}

#[test]
fn reads_numbers(rt: HostRuntime) {
    let cases: [(&str, Numeral); 20] = [
        (" - 007 ", Whole(-7)),
        ("0", Whole(0)),
        ("-0", Whole(0)),
        ("000", Whole(0)),
        ("\t+\t 12\t", Whole(12)),
        (" +5", Whole(5)),
        ("+ 5", Whole(5)),
        ("-\t5", Whole(-5)),
        ("5  ", Whole(5)),
        ("10", Whole(10)),
        ("0123456789", Whole(123456789)),
        ("999999999999999999", Whole(999999999999999999)),
        ("-999999999999999999", Whole(-999999999999999999)),
        ("00000999999999999999999", Whole(999999999999999999)),
        ("000000000000000000000000000001", Whole(1)),
        ("100000000000000000", Whole(100000000000000000)),
        ("1000000000000000000", Long),
        ("- 0001000000000000000000", Long),
        ("9999999999999999999", Long),
        ("99999999999999999999999999999999999999999999999999", Long),
    ];
    for (text, want) in cases {
        assert_reads(&rt, text, want);
    }
}

#[test]
fn refuses_other_texts(rt: HostRuntime) {
    let cases: [&str; 19] = [
        "",
        " ",
        "\t \t",
        "+",
        " - ",
        "--1",
        "+-1",
        "1 2",
        "5-",
        "1.5",
        "1.",
        ".5",
        "1E5",
        "1e0",
        "12a",
        "a12",
        "0x10",
        "\n1",
        "9999999999999999999x",
    ];
    for text in cases {
        assert_reads(&rt, text, NoNumber);
    }
}

#[test]
fn writes_numbers(rt: HostRuntime) {
    let cases: [(i64, &str); 8] = [
        (0, "0"),
        (7, "7"),
        (-7, "-7"),
        (100, "100"),
        (-120, "-120"),
        (999999999999999999, "999999999999999999"),
        (9223372036854775807, "9223372036854775807"),
        (-9223372036854775808, "-9223372036854775808"),
    ];
    for (number, want) in cases {
        assert_writes(&rt, number, want);
    }
}
