// The operators on numbers.
ghost use Rattle.std.specs.Prelude.{◌≡◌, ◌≤◌, ℤ, pos, Option, Some};
ghost use Rattle.rx_whole.specs.Arithmetic.{apply};
ghost use Rattle.rx_whole.specs.Number.{num};
ghost use Rattle.rx_whole.specs.Numeral.{numeral_of};
ghost use Rattle.rx_operators.specs.Numbers.{pair_of};
ghost use Rattle.rx_operators.specs.Operators.{calculated, operator_of};

use crate::family::Arithmetic;
use rx_whole::{
    Numeral, OVERFLOW, add, divide, multiply, power, quotient, read_number, remainder, subtract,
};

// The error of an operand that is no number.
const NO_NUMBER: u8 = 41;

/// What two texts say as numbers.
#[derive(Clone, Copy)]
pub enum Operands {
    /// Two numbers of at most 18 digits.
    Both(i64, i64),
    /// Two numbers, of which one has more digits.
    Long,
    /// One of the texts is no number.
    NotBoth,
}

// What two numerals say.
fn operands_of(a: Numeral, b: Numeral) -> Operands
    ensures { (m n : Option ℤ) → a ≡ numeral_of m → b ≡ numeral_of n → result ≡ pair_of m n }
{
    match (a, b) {
        (Numeral::NoNumber, _) | (_, Numeral::NoNumber) => Operands::NotBoth,
        (Numeral::Whole(a), Numeral::Whole(b)) => Operands::Both(a, b),
        _ => Operands::Long,
    }
}

/// The numbers that two texts say.
pub(crate) fn numbers(a: &[u8], b: &[u8]) -> Operands
    ensures { result ≡ pair_of (num a.now) (num b.now) }
{
    operands_of(read_number(a), read_number(b))
}

/// 0, and the number that a text says.
pub(crate) fn zero_and(a: &[u8]) -> Operands
    ensures { result ≡ pair_of (Some (pos 0)) (num a.now) }
{
    operands_of(Numeral::Whole(0), read_number(a))
}

// What an operator gives for two numbers.
fn apply(operator: Arithmetic, a: i64, b: i64, digits: u8) -> Result<i64, u8>
    requires at_least_1 { 1 ≤ digits }
    requires at_most_18 { digits ≤ 18 }
    ensures { result ≡ apply (operator_of operator) a b digits }
{
    match operator {
        Arithmetic::Add => add(a, b, digits),
        Arithmetic::Subtract => subtract(a, b, digits),
        Arithmetic::Multiply => multiply(a, b, digits),
        Arithmetic::Divide => divide(a, b, digits),
        Arithmetic::Quotient => quotient(a, b, digits),
        Arithmetic::Remainder => remainder(a, b, digits),
        Arithmetic::Power => power(a, b, digits),
    }
}

/// What an operator gives for two numbers that were read.
pub(crate) fn calculate(operator: Arithmetic, numbers: Operands, digits: u8) -> Result<i64, u8>
    requires at_least_1 { 1 ≤ digits }
    requires at_most_18 { digits ≤ 18 }
    ensures { (m n : Option ℤ) → numbers ≡ pair_of m n → result ≡ calculated (operator_of operator) m n digits }
{
    match numbers {
        Operands::NotBoth => Err(NO_NUMBER),
        Operands::Long => Err(OVERFLOW),
        Operands::Both(a, b) => apply(operator, a, b, digits),
    }
}
