// Each call of the lower crates that allocates, once with ample memory.
use rx_top::{Request, WordsRefused, read_words};
use rx_tree::{Text, Value};
use std::process::Abort;
use std::test::Fail;

// A text has these bytes.
fn assert_bytes(rt: &impl Abort, text: &Text, bytes: &[u8]) {
    assert!(rt; text.bytes() == bytes);
}

// A value is this string, or where none is wanted the object 9.
fn assert_value(rt: &impl Abort, value: &Value, want: Option<&[u8]>) {
    match (value, want) {
        (Value::Str(text), Some(bytes)) => assert_bytes(rt, text, bytes),
        (Value::Ref(9), None) => {}
        _ => panic!(rt; "another value"),
    }
}

#[test]
fn a_text_and_its_shares_have_the_bytes(rt: HostRuntime) -> Result<(), Fail> {
    let text = Text::from_slice(rt.alloc(), b"ab")?;
    assert_bytes(&rt, &text.share()?, b"ab");
    assert_value(&rt, &Value::Str(text).share()?, Some(b"ab"));
    assert_value(&rt, &Value::Ref(9).share()?, None);
    Ok(())
}

// `run p` is asked for, with the number of steps that is meant where none is said.
fn assert_plain_run(rt: &impl Abort, asks: &Request) {
    let Request::Run {
        workers,
        steps,
        schedule,
        program,
        arg,
    } = asks
    else {
        panic!(rt; "another request");
    };
    assert!(rt; *workers == 0 && *steps == 1_000_000);
    assert!(rt; schedule.is_none() && arg.is_none());
    assert!(rt; program.as_slice() == b"p".as_slice());
}

// `check p` is asked for.
fn assert_check(rt: &impl Abort, asks: &Request) {
    let Request::Check { program } = asks else {
        panic!(rt; "another request");
    };
    assert!(rt; program.as_slice() == b"p".as_slice());
}

#[test]
fn words_are_read(rt: HostRuntime) -> Result<(), Fail> {
    let alloc = rt.alloc();
    let words = [b"run".to_vec(alloc)?, b"p".to_vec(alloc)?];
    assert_plain_run(&rt, &read_words(alloc, &words)?);
    let check = [b"check".to_vec(alloc)?, b"p".to_vec(alloc)?];
    assert_check(&rt, &read_words(alloc, &check)?);
    match read_words(alloc, &words[..1]) {
        Err(WordsRefused::NotARequest) => Ok(()),
        _ => panic!(rt; "words that are no request"),
    }
}
