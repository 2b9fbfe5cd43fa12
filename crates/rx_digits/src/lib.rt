//! The digits of binary and hexadecimal texts, and the bytes that they stand for.
//!
//! Digits may stand in groups with blanks between them; no blank is outermost. Each group but the first has an even number
//! of hexadecimal digits, or a multiple of four binary ones. The first `true` or `false` of a call says whether the digits
//! are binary.
#![tactic(auto)]

ghost use Rattle.std.specs.Prelude.{◌≡◌, ◌≤◌, ◌<◌, ◌&&◌, length, IfOk, IfSome, option_map};
ghost use Rattle.rx_tree.specs.Strings.{is_digit_in, digit_value, base_of, group_of, width_of, digits_in, is_grouped, is_trimmed, bytes_of, packed};

use rx_text::is_blank;
use rx_tree::OutOfMemory;
use std::alloc::Global;

fn is_digit_in(binary: bool, byte: u8) -> bool
    ensures { result ≡ is_digit_in binary byte }
{
    if binary {
        byte == b'0' || byte == b'1'
    } else {
        byte.is_ascii_hexdigit()
    }
}

/// What a digit counts, in either case.
pub fn digit_value(byte: u8) -> u8
    ensures { result ≡ digit_value byte }
{
    match byte {
        b'0'..=b'9' => byte - b'0',
        b'A'..=b'F' => byte - 55,
        _ => byte.saturating_sub(87),
    }
}

/// How many digits stand in a text of digits and blanks.
pub fn digits_in(text: &[u8]) -> usize
    ensures { result ≡ digits_in text.now }
{
    text.iter().filter(|byte| !is_blank(**byte)).count()
}

fn is_trimmed(text: &[u8]) -> bool
    ensures { result ≡ is_trimmed text.now }
{
    let blank_in_front = match text {
        [first, ..] => is_blank(*first),
        [] => false,
    };
    let blank_behind = match text {
        [.., last] => is_blank(*last),
        [] => false,
    };
    !blank_in_front && !blank_behind
}

fn is_grouped(binary: bool, text: &[u8]) -> bool
    ensures { result ≡ is_grouped binary text.now }
{
    let group = if binary { 4 } else { 2 };
    let mut left = digits_in(text);
    let mut rest = text;
    while let [byte, more @ ..] = rest {
        if is_blank(*byte) {
            if left % group != 0 {
                return false;
            }
        } else {
            if !is_digit_in(binary, *byte) {
                return false;
            }
            left -= 1;
        }
        rest = more;
    }
    true
}

/// The bytes of the digits of a text, which are filled up with zeros on the left to whole bytes.
pub fn bytes_of(alloc: Global, binary: bool, text: &[u8]) -> Result<Vec<u8>, OutOfMemory>
    ensures value { IfOk result (λ bytes. bytes.items ≡ bytes_of binary 0 text.now) }
    ensures few { IfOk result (λ bytes. length bytes.items ≤ length text.now) }
{
    let (base, width) = if binary { (2, 8) } else { (16, 2) };
    let mut bytes = Vec::new(alloc);
    let mut left = digits_in(text);
    let mut so_far = 0u16;
    let mut rest = text;
    while let [byte, more @ ..] = rest {
        if !is_blank(*byte) {
            left -= 1;
            so_far = (so_far * base + u16::from(digit_value(*byte))) % 256;
            if left % width == 0 {
                bytes.push(so_far as u8)?;
                so_far = 0;
            }
        }
        rest = more;
    }
    Ok(bytes)
}

/// Whether a text is one of binary or hexadecimal digits. The empty text is one.
pub fn are_digits(binary: bool, text: &[u8]) -> bool
    ensures { result ≡ (is_trimmed text.now && is_grouped binary text.now) }
{
    is_trimmed(text) && is_grouped(binary, text)
}

/// The bytes of a binary or hexadecimal text, or none where it is none. Its digits are filled up with zeros on the left to
/// whole bytes.
pub fn packed(alloc: Global, binary: bool, text: &[u8]) -> Result<Option<Vec<u8>>, OutOfMemory>
    ensures packed { IfOk result (λ found. option_map (λ bytes. bytes.items) found ≡ packed binary text.now) }
    ensures few { IfOk result (λ found. IfSome found (λ bytes. length bytes.items ≤ length text.now)) }
{
    if are_digits(binary, text) {
        return Ok(Some(bytes_of(alloc, binary, text)?));
    }
    Ok(None)
}
