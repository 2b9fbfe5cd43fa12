// The numbers of texts.
ghost use Rattle.std.specs.Prelude.{◌≡◌, ◌+◌, ◌-◌, ◌*◌, ◌^◌, ◌≤◌, min};
ghost use Rattle.rx_answers.specs.Answers.{number_answer};
ghost use Rattle.rx_convfn.specs.Conversions.{c2d, x2d};
ghost use Rattle.rx_convfn.specs.Digits.{digits, number_of, values_of, within_digits};

use rx_answers::{Number, OUT_OF_RANGE};
use rx_digits::{are_digits, digit_value};
use rx_text::is_blank;

// A number with one more digit in a base, or the greatest number where it is more than that.
fn with_digit(number: u64, base: u64, digit: u8) -> u64
    ensures { result ≡ min (number * base + digit) (2 ^ 64 - 1) }
{
    number.saturating_mul(base).saturating_add(u64::from(digit))
}

// The number of some bytes, the first of them the highest, or the greatest number where it is more than that.
fn number_of_bytes(bytes: &[u8]) -> u64
    ensures { result ≡ min (number_of 256 bytes.now) (2 ^ 64 - 1) }
{
    let mut number = 0;
    let mut rest = bytes;
    while let [byte, more @ ..] = rest {
        number = with_digit(number, 256, *byte);
        rest = more;
    }
    number
}

// The number of hexadecimal digits, or the greatest number where it is more than that.
fn number_of_digits(text: &[u8]) -> u64
    ensures { result ≡ min (number_of 16 (values_of (digits text.now))) (2 ^ 64 - 1) }
{
    let mut number = 0;
    let mut rest = text;
    while let [byte, more @ ..] = rest {
        if !is_blank(*byte) {
            number = with_digit(number, 16, digit_value(*byte));
        }
        rest = more;
    }
    number
}

// The least number of more than so many decimal digits.
fn limit(digits: u8) -> u64
    requires { digits ≤ 18 }
    ensures value { result ≡ 10 ^ digits }
    ensures bound { result ≤ 10 ^ 18 }
{
    10u64.pow(u32::from(digits))
}

// A number that has at most so many decimal digits.
fn within_digits(number: u64, digits: u8) -> Number
    requires { digits ≤ 18 }
    ensures { result ≡ number_answer (within_digits digits number) }
{
    if number < limit(digits) {
        Ok(number)
    } else {
        Err(OUT_OF_RANGE)
    }
}

/// C2D under DIGITS `digits`: the number of the bytes of a text, the first of them the highest. It has no sign, and that
/// of the empty text is 0.
///
/// # Errors
///
/// 40 where the number has more than `digits` digits.
pub fn c2d(text: &[u8], digits: u8) -> Number
    requires at_least_1 { 1 ≤ digits }
    requires at_most_18 { digits ≤ 18 }
    ensures answer { result ≡ number_answer (c2d text.now digits) }
{
    within_digits(number_of_bytes(text), digits)
}

/// X2D under DIGITS `digits`: the number of hexadecimal digits. It has no sign, and that of the empty text is 0.
///
/// # Errors
///
/// 40 where the text is none of hexadecimal digits, or the number has more than `digits` digits.
pub fn x2d(text: &[u8], digits: u8) -> Number
    requires at_least_1 { 1 ≤ digits }
    requires at_most_18 { digits ≤ 18 }
    ensures answer { result ≡ number_answer (x2d text.now digits) }
{
    if !are_digits(false, text) {
        return Err(OUT_OF_RANGE);
    }
    within_digits(number_of_digits(text), digits)
}
