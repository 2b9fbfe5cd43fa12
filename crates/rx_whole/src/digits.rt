// How many digits a number may have, and the errors that arithmetic raises.
ghost use Rattle.std.specs.Prelude.{◌≡◌, ◌^◌, ◌<◌, ◌≤◌, ◌&&◌, IfOk, IsTrue, unsigned_abs};
ghost use Rattle.rx_whole.specs.Arithmetic.{within};
ghost use Rattle.rx_whole.specs.Digits.{has_at_most};
ghost use Rattle.rx_whole.specs.Number.{with_sign};

/// The error of a number with more than DIGITS digits, and of a division by 0.
pub const OVERFLOW: u8 = 42;

/// The error of a division that leaves a remainder, and of a negative exponent.
pub const INVALID_WHOLE_NUMBER: u8 = 26;

// The least magnitude with more than `digits` digits.
pub(crate) fn limit(digits: u8) -> u64
    requires { digits ≤ 18 }
    ensures value { result ≡ 10 ^ digits }
    ensures least { 1 ≤ digits → 10 ≤ result }
    ensures bound { result ≤ 10 ^ 18 }
{
    10u64.pow(u32::from(digits))
}

// Whether both operands have at most `digits` digits.
pub(crate) fn are_within(a: i64, b: i64, digits: u8) -> bool
    requires { digits ≤ 18 }
    ensures both { result ≡ (has_at_most digits a && has_at_most digits b) }
    ensures left { IsTrue result → unsigned_abs a < 10 ^ 18 }
    ensures right { IsTrue result → unsigned_abs b < 10 ^ 18 }
{
    let limit = limit(digits);
    a.unsigned_abs() < limit && b.unsigned_abs() < limit
}

// A result, or the error where it has more than `digits` digits.
pub(crate) fn within(value: i128, digits: u8) -> Result<i64, u8>
    requires { digits ≤ 18 }
    ensures within { result ≡ within digits value }
    ensures short { IfOk result (λ number. unsigned_abs number < 10 ^ digits) }
{
    if value.unsigned_abs() < u128::from(limit(digits)) {
        Ok(value as i64)
    } else {
        Err(OVERFLOW)
    }
}

// A magnitude with a sign.
pub(crate) fn signed(magnitude: u64, is_negative: bool) -> i64
    requires { magnitude < 10 ^ 18 }
    ensures { result ≡ with_sign is_negative magnitude }
{
    let number = magnitude as i64;
    if is_negative { -number } else { number }
}
