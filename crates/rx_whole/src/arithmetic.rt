// The sum, the difference and the product of two numbers, and their order.
ghost use Rattle.std.specs.Prelude.{◌≡◌, ◌^◌, ◌<◌, ◌≤◌, IfOk, unsigned_abs};
ghost use Rattle.rx_whole.specs.Arithmetic.{Add, Multiply, Subtract, apply, order_of};

use crate::digits::{OVERFLOW, are_within, within};
use std::cmp::Ordering;

/// The operator `+` under DIGITS `digits`.
///
/// # Errors
///
/// 42 where an operand, or else the sum, has more than `digits` digits.
#[tactic(auto, using(crate::proofs::ArithmeticLemmas::answers))]
pub fn add(a: i64, b: i64, digits: u8) -> Result<i64, u8>
    requires at_least_1 { 1 ≤ digits }
    requires at_most_18 { digits ≤ 18 }
    ensures sum { result ≡ apply Add a b digits }
    ensures short { IfOk result (λ number. unsigned_abs number < 10 ^ digits) }
{
    if !are_within(a, b, digits) {
        return Err(OVERFLOW);
    }
    within(i128::from(a) + i128::from(b), digits)
}

/// The operator `-` under DIGITS `digits`.
///
/// # Errors
///
/// 42 where an operand, or else the difference, has more than `digits` digits.
#[tactic(auto, using(crate::proofs::ArithmeticLemmas::answers))]
pub fn subtract(a: i64, b: i64, digits: u8) -> Result<i64, u8>
    requires at_least_1 { 1 ≤ digits }
    requires at_most_18 { digits ≤ 18 }
    ensures difference { result ≡ apply Subtract a b digits }
    ensures short { IfOk result (λ number. unsigned_abs number < 10 ^ digits) }
{
    if !are_within(a, b, digits) {
        return Err(OVERFLOW);
    }
    within(i128::from(a) - i128::from(b), digits)
}

/// The operator `*` under DIGITS `digits`.
///
/// # Errors
///
/// 42 where an operand, or else the product, has more than `digits` digits.
#[tactic(auto, using(crate::proofs::ArithmeticLemmas::answers))]
pub fn multiply(a: i64, b: i64, digits: u8) -> Result<i64, u8>
    requires at_least_1 { 1 ≤ digits }
    requires at_most_18 { digits ≤ 18 }
    ensures product { result ≡ apply Multiply a b digits }
    ensures short { IfOk result (λ number. unsigned_abs number < 10 ^ digits) }
{
    if !are_within(a, b, digits) {
        return Err(OVERFLOW);
    }
    within(i128::from(a) * i128::from(b), digits)
}

/// The order of two numbers under DIGITS `digits`, as `=`, `<` and `>` take it.
///
/// # Errors
///
/// 42 where either has more than `digits` digits.
#[tactic(auto, using(crate::proofs::ArithmeticLemmas::answers))]
pub fn compare(a: i64, b: i64, digits: u8) -> Result<Ordering, u8>
    requires at_least_1 { 1 ≤ digits }
    requires at_most_18 { digits ≤ 18 }
    ensures order { result ≡ order_of a b digits }
{
    if !are_within(a, b, digits) {
        return Err(OVERFLOW);
    }
    Ok(a.cmp(&b))
}
