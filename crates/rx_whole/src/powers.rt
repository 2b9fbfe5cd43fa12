// The power of a number.
ghost use Rattle.std.specs.Prelude.{◌≡◌, ◌^◌, ◌<◌, ◌≤◌, ◌%◌, ◌&&◌, ◌==◌, IfOk, int_lt, not, pos, unsigned_abs};
ghost use Rattle.rx_whole.specs.Arithmetic.{Power, apply};
ghost use Rattle.rx_whole.specs.Digits.{below};

use crate::digits::{INVALID_WHOLE_NUMBER, OVERFLOW, are_within, limit, signed};

/// The operator `**` under DIGITS `digits`. Any number to the power 0 is 1, 0 too.
///
/// It takes at most 60 steps, since it stops where the power can't fit any more.
///
/// # Errors
///
/// 42 where an operand has more than `digits` digits, else 26 where the exponent `b` is negative,
/// else 42 where the power has more than `digits` digits.
#[tactic(auto, using(crate::proofs::ArithmeticLemmas::power_answers))]
pub fn power(a: i64, b: i64, digits: u8) -> Result<i64, u8>
    requires at_least_1 { 1 ≤ digits }
    requires at_most_18 { digits ≤ 18 }
    ensures power { result ≡ apply Power a b digits }
    ensures short { IfOk result (λ number. unsigned_abs number < 10 ^ digits) }
{
    if !are_within(a, b, digits) {
        return Err(OVERFLOW);
    }
    if b < 0 {
        return Err(INVALID_WHOLE_NUMBER);
    }
    let exponent = b.unsigned_abs();
    match power_below(a.unsigned_abs(), exponent, limit(digits)) {
        Some(magnitude) => Ok(signed(magnitude, is_negative_power(a, exponent))),
        None => Err(OVERFLOW),
    }
}

// Whether a power is negative: that of a negative number with an odd exponent.
fn is_negative_power(base: i64, exponent: u64) -> bool
    ensures { result ≡ (int_lt base (pos 0) && not (exponent % 2 == 0)) }
{
    base < 0 && exponent % 2 != 0
}

// A power that is below a limit.
fn power_below(base: u64, exponent: u64, limit: u64) -> Option<u64>
    requires above_1 { 1 < limit }
    requires base_below { base < limit }
    requires at_most { limit ≤ 10 ^ 18 }
    ensures { result ≡ below limit (base ^ exponent) }
{
    if base < 2 {
        return Some(if exponent == 0 { 1 } else { base });
    }
    let mut power: u128 = 1;
    for _ in 0..exponent {
        power *= u128::from(base);
        if power >= u128::from(limit) {
            return None;
        }
    }
    Some(power as u64)
}
