// Texts as hexadecimal and binary digits, and back.
ghost use Rattle.std.specs.Prelude.{◌≡◌, ◌+◌, ◌*◌, ◌<◌, ◌++◌, IfOk, OnOk, slice_index};
ghost use Rattle.hex.specs.Hex.{upper_digits};
ghost use Rattle.rx_answers.specs.Answers.{AnswersText};
ghost use Rattle.rx_convfn.specs.Conversions.{b2x, c2x, x2b, x2c};
ghost use Rattle.rx_convfn.specs.Digits.{bit, digits, four_bits, from_fours, whole_fours};

use rx_answers::{Bytes, LONGEST, OUT_OF_RANGE, Refused, TOO_LONG};
use rx_digits::{are_digits, bytes_of, digit_value, digits_in};
use rx_text::is_blank;
use std::alloc::{AllocError, Global};

/// C2X: the bytes of a text as hexadecimal digits in upper case, two for each byte.
///
/// # Errors
///
/// 5 where the digits are more than a text may have bytes.
pub fn c2x(alloc: Global, text: &[u8]) -> Bytes
    ensures answer { AnswersText result (c2x text.now) }
{
    if text.len() > LONGEST / 2 {
        return Err(TOO_LONG);
    }
    let digits = hex::encode_upper(alloc, text)?;
    Ok(digits.into_bytes())
}

/// X2C: the bytes of hexadecimal digits. An odd count of digits gets a zero in front.
///
/// # Errors
///
/// 40 where the text is none of hexadecimal digits, else 5 where the bytes are more than a text may have.
pub fn x2c(alloc: Global, text: &[u8]) -> Bytes
    ensures answer { AnswersText result (x2c text.now) }
{
    if !are_digits(false, text) {
        return Err(OUT_OF_RANGE);
    }
    if digits_in(text) > 2 * LONGEST {
        return Err(TOO_LONG);
    }
    match bytes_of(alloc, false, text) {
        Ok(bytes) => Ok(bytes),
        Err(_) => Err(Refused::OutOfMemory),
    }
}

// Appends the four binary digits of a hexadecimal one.
fn push_bits(bits: &mut Vec<u8>, digit: u8) -> Result<(), AllocError>
    ensures { OnOk result (bits.new.items ≡ bits.old.items ++ four_bits digit) }
{
    let value = digit_value(digit);
    bits.extend_from_slice(&[
        b'0' + value / 8,
        b'0' + value / 4 % 2,
        b'0' + value / 2 % 2,
        b'0' + value % 2,
    ])
}

/// X2B: hexadecimal digits as binary ones, four for each.
///
/// # Errors
///
/// 40 where the text is none of hexadecimal digits, else 5 where the binary digits are more than a text may have bytes.
pub fn x2b(alloc: Global, text: &[u8]) -> Bytes
    ensures answer { AnswersText result (x2b text.now) }
{
    if !are_digits(false, text) {
        return Err(OUT_OF_RANGE);
    }
    if digits_in(text) > LONGEST / 4 {
        return Err(TOO_LONG);
    }
    let mut bits = Vec::new(alloc);
    let mut rest = text;
    while let [byte, more @ ..] = rest {
        if !is_blank(*byte) {
            push_bits(&mut bits, *byte)?;
        }
        rest = more;
    }
    Ok(bits)
}

// The digits of a text of binary digits, with zeros in front to make whole fours.
fn whole_fours(alloc: Global, text: &[u8]) -> Result<Vec<u8>, AllocError>
    ensures { IfOk result (λ bits. bits.items ≡ whole_fours (digits text.now)) }
{
    let mut bits = Vec::new(alloc);
    for _ in 0..(4 - digits_in(text) % 4) % 4 {
        bits.push(b'0')?;
    }
    let mut rest = text;
    while let [byte, more @ ..] = rest {
        if !is_blank(*byte) {
            bits.push(*byte)?;
        }
        rest = more;
    }
    Ok(bits)
}

fn bit(digit: u8) -> u8
    ensures value { result ≡ bit digit }
    ensures small { result < 2 }
{
    if digit == b'1' { 1 } else { 0 }
}

fn hexadecimal_digit(value: u8) -> u8
    requires { value < 16 }
    ensures { result ≡ slice_index upper_digits value }
{
    b"0123456789ABCDEF"[usize::from(value)]
}

// The hexadecimal digit of each four binary ones.
fn from_fours(alloc: Global, bits: &[u8]) -> Result<Vec<u8>, AllocError>
    ensures { IfOk result (λ digits. digits.items ≡ from_fours bits.now) }
{
    let mut digits = Vec::new(alloc);
    let mut rest = bits;
    while let [a, b, c, d, more @ ..] = rest {
        let value = bit(*a) * 8 + bit(*b) * 4 + bit(*c) * 2 + bit(*d);
        digits.push(hexadecimal_digit(value))?;
        rest = more;
    }
    Ok(digits)
}

/// B2X: binary digits as hexadecimal ones in upper case, one for each four. The binary ones get zeros in front to make
/// whole fours.
///
/// # Errors
///
/// 40 where the text is none of binary digits, else 5 where the hexadecimal digits are more than a text may have bytes.
pub fn b2x(alloc: Global, text: &[u8]) -> Bytes
    ensures answer { AnswersText result (b2x text.now) }
{
    if !are_digits(true, text) {
        return Err(OUT_OF_RANGE);
    }
    if digits_in(text) > 4 * LONGEST {
        return Err(TOO_LONG);
    }
    let bits = whole_fours(alloc, text)?;
    Ok(from_fours(alloc, &bits)?)
}
