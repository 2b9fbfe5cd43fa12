// The number that a text says.
ghost use Rattle.std.specs.Prelude.{◌≡◌, ℤ, Some, ◌↔◌, ◌^◌, ◌<◌, ◌≤◌, IsTrue, min, option_map};
ghost use Rattle.std.specs.Char.{is_ascii_digit};
ghost use Rattle.std.specs.List.{list_all};
ghost use Rattle.std.specs.Str.Parse.{digits_value};
ghost use Rattle.rx_whole.specs.Number.{IsNumberText, digits_number, num, signed_number, with_sign};
ghost use Rattle.rx_whole.specs.Numeral.{numeral_of};

use crate::digits::signed;
use rx_text::{strip, strip_front};

// The least magnitude of more than 18 digits.
const LIMIT: u64 = 1_000_000_000_000_000_000;

/// What a text says as a number.
#[derive(Clone, Copy, Debug, PartialEq, Eq)]
pub enum Numeral {
    /// A number of at most 18 digits.
    Whole(i64),
    /// A number of more than 18 digits.
    Long,
    /// The text is not that of a number.
    NoNumber,
}

/// Reads the text of a number: blanks, a sign or none, blanks, decimal digits, and blanks. Leading
/// zeros are no digits of the number. A text with a point, an exponent or anything else is
/// [`Numeral::NoNumber`].
pub fn read_number(text: &[u8]) -> Numeral
    ensures numeral { result ≡ numeral_of (num text.now) }
    ensures texts { (number : ℤ) → (num text.now ≡ Some number) ↔ IsNumberText text.now number }
{
    let (digits, is_negative) = split_sign(strip(text));
    numeral_from(read_digits(digits), is_negative)
}

// What stands behind the sign and its blanks, and whether the sign is `-`.
fn split_sign(text: &[u8]) -> (&[u8], bool)
    ensures { signed_number text.now ≡ option_map (with_sign result.1) (digits_number result.0.now) }
{
    match text {
        [b'-', rest @ ..] => (strip_front(rest), true),
        [b'+', rest @ ..] => (strip_front(rest), false),
        digits => (digits, false),
    }
}

// The numeral of a magnitude, which is at most `LIMIT` and counts as more there, and a sign.
fn numeral_from(magnitude: Option<u64>, is_negative: bool) -> Numeral
    ensures { result ≡ numeral_of (option_map (with_sign is_negative) magnitude) }
{
    match magnitude {
        None => Numeral::NoNumber,
        Some(magnitude) if magnitude < LIMIT => Numeral::Whole(signed(magnitude, is_negative)),
        Some(_) => Numeral::Long,
    }
}

// The number that decimal digits say, capped at `LIMIT`.
fn read_digits(digits: &[u8]) -> Option<u64>
    ensures { result ≡ option_map (λ m. min m LIMIT) (digits_number digits.now) }
{
    if digits.is_empty() || !are_digits(digits) {
        return None;
    }
    Some(capped_value(digits))
}

// Whether each byte is a decimal digit.
fn are_digits(bytes: &[u8]) -> bool
    ensures { result ≡ list_all is_ascii_digit bytes.now }
{
    bytes.iter().all(|byte| byte.is_ascii_digit())
}

// The value of digits, capped at `LIMIT`.
fn capped_value(digits: &[u8]) -> u64
    requires { IsTrue (list_all is_ascii_digit digits.now) }
    ensures { result ≡ min (digits_value 10 digits.now) LIMIT }
{
    let mut value = 0;
    for byte in digits {
        value = LIMIT.min(value * 10 + u64::from(*byte - b'0'));
    }
    value
}
