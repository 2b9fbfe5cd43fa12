// STRIP.
ghost use Rattle.std.specs.Prelude.{◌≡◌};
ghost use Rattle.rx_answers.specs.Answers.{AnswersText};
ghost use Rattle.rx_cutfn.specs.Stripping.{is_outer, strip, without_leading, without_trailing};

use crate::answer::copy;
use rx_answers::{Bytes, OUT_OF_RANGE};
use rx_text::is_blank;
use std::alloc::Global;

// Whether a byte is one to strip: the byte that is given, or else a blank.
fn is_outer(given: Option<u8>, byte: u8) -> bool
    ensures { result ≡ is_outer given byte }
{
    match given {
        Some(given) => byte == given,
        None => is_blank(byte),
    }
}

// The text from its first other byte on.
fn strip_leading(text: &[u8], given: Option<u8>) -> &[u8]
    ensures { result.now ≡ without_leading given text.now }
{
    let mut rest = text;
    while let [first, tail @ ..] = rest {
        if !is_outer(given, *first) {
            break;
        }
        rest = tail;
    }
    rest
}

// The text up to its last other byte.
fn strip_trailing(text: &[u8], given: Option<u8>) -> &[u8]
    ensures { result.now ≡ without_trailing given text.now }
{
    let mut rest = text;
    while let [front @ .., last] = rest {
        if !is_outer(given, *last) {
            break;
        }
        rest = front;
    }
    rest
}

/// STRIP: the text without the blanks, or the bytes that are equal to `byte`, on its sides: with the option B on both, with L
/// on the leading and with T on the trailing one, in either case. The option is B where it isn't given.
///
/// # Errors
///
/// 40 where the option is another byte, else 5 where the value has more than 16,777,216 bytes.
#[tactic(auto, unfolding(crate::specs::Stripping::strip))]
pub fn strip(alloc: Global, text: &[u8], option: Option<u8>, byte: Option<u8>) -> Bytes
    ensures answer { AnswersText result (strip text.now option byte) }
{
    let stripped = match option.unwrap_or(b'B').to_ascii_uppercase() {
        b'B' => strip_trailing(strip_leading(text, byte), byte),
        b'L' => strip_leading(text, byte),
        b'T' => strip_trailing(text, byte),
        _ => return Err(OUT_OF_RANGE),
    };
    copy(alloc, stripped)
}
