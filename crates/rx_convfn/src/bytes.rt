// The bytes of a number, and bytes in their order.
ghost use Rattle.std.specs.Prelude.{◌≡◌, IfOk};
ghost use Rattle.rx_answers.specs.Answers.{AnswersText};
ghost use Rattle.rx_convfn.specs.Conversions.{bytes_from, d2c, d2x, xrange};
ghost use Rattle.rx_convfn.specs.Digits.{without_leading};

use rx_answers::{Bytes, OUT_OF_RANGE};
use std::alloc::{AllocError, Global};

// Some bytes without those in front that are this byte.
fn without_leading(byte: u8, bytes: &[u8]) -> &[u8]
    ensures { result.now ≡ without_leading byte bytes.now }
{
    let mut rest = bytes;
    while let [first, more @ ..] = rest {
        if *first != byte {
            break;
        }
        rest = more;
    }
    rest
}

/// D2C: the bytes of a number, the first of them the highest, without zero bytes in front.
///
/// # Errors
///
/// 40 where the number is 0.
pub fn d2c(alloc: Global, n: u64) -> Bytes
    ensures answer { AnswersText result (d2c n) }
{
    if n == 0 {
        return Err(OUT_OF_RANGE);
    }
    Ok(Vec::from_slice(alloc, without_leading(0, &n.to_be_bytes()))?)
}

/// D2X: a number as hexadecimal digits in upper case, without zeros in front; `0` for 0.
pub fn d2x(alloc: Global, n: u64) -> Bytes
    ensures answer { AnswersText result (d2x n) }
{
    if n == 0 {
        return Ok(Vec::from_slice(alloc, b"0")?);
    }
    let digits = hex::encode_upper(alloc, n.to_be_bytes())?;
    Ok(Vec::from_slice(alloc, without_leading(b'0', digits.as_bytes()))?)
}

// So many bytes from one on, each one more than that before, and 0 behind 255.
fn bytes_from(alloc: Global, first: u8, count: u16) -> Result<Vec<u8>, AllocError>
    ensures { IfOk result (λ bytes. bytes.items ≡ bytes_from first count) }
{
    let mut bytes = Vec::new(alloc);
    let mut next = first;
    for _ in 0..count {
        bytes.push(next)?;
        next = next.wrapping_add(1);
    }
    Ok(bytes)
}

/// XRANGE: the bytes from `a` to `b` in their order, which goes on with 0 behind 255. `a` is 0 and `b` 255 where they
/// aren't given.
pub fn xrange(alloc: Global, a: Option<u8>, b: Option<u8>) -> Bytes
    ensures answer { AnswersText result (xrange a b) }
{
    let first = a.unwrap_or(0);
    let further = b.unwrap_or(255).wrapping_sub(first);
    Ok(bytes_from(alloc, first, u16::from(further) + 1)?)
}
