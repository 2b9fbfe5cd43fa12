// Which kind of text a text is.
ghost use Rattle.std.specs.Prelude.{◌≡◌};
ghost use Rattle.std.specs.Char.{is_ascii_alphabetic, is_ascii_alphanumeric, is_ascii_lowercase, is_ascii_uppercase};
ghost use Rattle.std.specs.List.{list_all};
ghost use Rattle.rx_answers.specs.Answers.{AnswersText};
ghost use Rattle.rx_convfn.specs.Kinds.{datatype, is_number, is_of_kind};

use rx_answers::{Bytes, OUT_OF_RANGE};
use rx_whole::{Numeral, read_number};
use std::alloc::Global;

fn is_number(text: &[u8]) -> bool
    ensures { result ≡ is_number text.now }
{
    !matches!(read_number(text), Numeral::NoNumber)
}

fn are_alphanumeric(text: &[u8]) -> bool
    ensures { result ≡ list_all is_ascii_alphanumeric text.now }
{
    text.iter().all(|byte| byte.is_ascii_alphanumeric())
}

fn are_lower(text: &[u8]) -> bool
    ensures { result ≡ list_all is_ascii_lowercase text.now }
{
    text.iter().all(|byte| byte.is_ascii_lowercase())
}

fn are_upper(text: &[u8]) -> bool
    ensures { result ≡ list_all is_ascii_uppercase text.now }
{
    text.iter().all(|byte| byte.is_ascii_uppercase())
}

fn are_alphabetic(text: &[u8]) -> bool
    ensures { result ≡ list_all is_ascii_alphabetic text.now }
{
    text.iter().all(|byte| byte.is_ascii_alphabetic())
}

// Whether a text is of the kind of an option; none where the option is that of no kind.
fn is_of_kind(text: &[u8], option: u8) -> Option<bool>
    ensures { result ≡ is_of_kind text.now option }
{
    let has_bytes = !text.is_empty();
    match option {
        b'A' | b'a' => Some(has_bytes && are_alphanumeric(text)),
        b'L' | b'l' => Some(has_bytes && are_lower(text)),
        b'U' | b'u' => Some(has_bytes && are_upper(text)),
        b'M' | b'm' => Some(has_bytes && are_alphabetic(text)),
        b'N' | b'n' | b'W' | b'w' => Some(is_number(text)),
        _ => None,
    }
}

/// DATATYPE: without a kind `NUM` where a text is that of a whole number, else `CHAR`. With one `1` where the text is of
/// that kind, else `0`: A of letters and digits, L of lower case letters, U of upper case letters, M of letters, N or W that
/// of a whole number. The empty text is of no kind. A kind is given in either case.
///
/// # Errors
///
/// 40 where the kind is none of these.
pub fn datatype(alloc: Global, text: &[u8], kind: Option<u8>) -> Bytes
    ensures answer { AnswersText result (datatype text.now kind) }
{
    let told: &[u8] = match kind {
        Some(option) => match is_of_kind(text, option) {
            Some(true) => b"1",
            Some(false) => b"0",
            None => return Err(OUT_OF_RANGE),
        },
        None if is_number(text) => b"NUM",
        None => b"CHAR",
    };
    Ok(Vec::from_slice(alloc, told)?)
}
