// The three divisions.
ghost use Rattle.std.specs.Prelude.{◌≡◌, ◌^◌, ◌<◌, ◌≤◌, ◌&&◌, ◌==◌, not, IfOk, IsTrue, unsigned_abs};
ghost use Rattle.std.specs.Int.{CanDivide, w64};
ghost use Rattle.rx_whole.specs.Digits.{has_at_most};
ghost use Rattle.rx_whole.specs.Arithmetic.{Divide, Quotient, Remainder, apply};

use crate::digits::{INVALID_WHOLE_NUMBER, OVERFLOW, are_within};

/// The operator `/` under DIGITS `digits`: the quotient of a division without a remainder.
///
/// # Errors
///
/// 42 where an operand has more than `digits` digits or the divisor `b` is 0, else 26 where the
/// division leaves a remainder.
#[tactic(auto, using(crate::proofs::ArithmeticLemmas::division_answers))]
pub fn divide(a: i64, b: i64, digits: u8) -> Result<i64, u8>
    requires at_least_1 { 1 ≤ digits }
    requires at_most_18 { digits ≤ 18 }
    ensures quotient { result ≡ apply Divide a b digits }
    ensures short { IfOk result (λ number. unsigned_abs number < 10 ^ digits) }
{
    if can_divide(a, b, digits) && a % b != 0 {
        return Err(INVALID_WHOLE_NUMBER);
    }
    quotient(a, b, digits)
}

/// The operator `%` under DIGITS `digits`: the quotient without its fraction, so that it is
/// rounded toward zero. -7 by 2 is -3.
///
/// # Errors
///
/// 42 where an operand has more than `digits` digits or the divisor `b` is 0.
#[tactic(auto, using(crate::proofs::ArithmeticLemmas::division_answers))]
pub fn quotient(a: i64, b: i64, digits: u8) -> Result<i64, u8>
    requires at_least_1 { 1 ≤ digits }
    requires at_most_18 { digits ≤ 18 }
    ensures quotient { result ≡ apply Quotient a b digits }
    ensures short { IfOk result (λ number. unsigned_abs number < 10 ^ digits) }
{
    if !can_divide(a, b, digits) {
        return Err(OVERFLOW);
    }
    Ok(a / b)
}

/// The operator `//` under DIGITS `digits`: what the division of `%` leaves, with the sign of the
/// dividend `a`. -7 by 2 leaves -1.
///
/// # Errors
///
/// 42 where an operand has more than `digits` digits or the divisor `b` is 0.
#[tactic(auto, using(crate::proofs::ArithmeticLemmas::division_answers))]
pub fn remainder(a: i64, b: i64, digits: u8) -> Result<i64, u8>
    requires at_least_1 { 1 ≤ digits }
    requires at_most_18 { digits ≤ 18 }
    ensures remainder { result ≡ apply Remainder a b digits }
    ensures short { IfOk result (λ number. unsigned_abs number < 10 ^ digits) }
{
    if !can_divide(a, b, digits) {
        return Err(OVERFLOW);
    }
    Ok(a % b)
}

// Whether both operands have at most `digits` digits, and the divisor is not 0.
fn can_divide(a: i64, b: i64, digits: u8) -> bool
    requires { digits ≤ 18 }
    ensures can { result ≡ ((has_at_most digits a && has_at_most digits b) && not (unsigned_abs b == 0)) }
    ensures divides { IsTrue result → CanDivide w64 a b }
{
    are_within(a, b, digits) && b != 0
}
