// The comparisons.
ghost use Rattle.std.specs.Prelude.{◌≡◌, ◌≤◌, ℤ, Option};
ghost use Rattle.rx_whole.specs.Number.{num};
ghost use Rattle.rx_operators.specs.Numbers.{pair_of};
ghost use Rattle.rx_operators.specs.Operators as spec;

use crate::arithmetic::{Operands, numbers};
use crate::family::Comparison;
use rx_text::compare_padded;
use rx_whole::{OVERFLOW, compare};
use std::cmp::Ordering;

// The order of two numbers that were read, or else of two texts.
fn order_by(numbers: Operands, order: Ordering, digits: u8) -> Result<Ordering, u8>
    requires at_least_1 { 1 ≤ digits }
    requires at_most_18 { digits ≤ 18 }
    ensures { (m n : Option ℤ) → numbers ≡ pair_of m n → result ≡ spec.order_by m n order digits }
{
    match numbers {
        Operands::Both(m, n) => compare(m, n, digits),
        Operands::Long => Err(OVERFLOW),
        Operands::NotBoth => Ok(order),
    }
}

/// The order of two texts: by their numbers where both are numbers, else without outer blanks and padded.
pub(crate) fn order(a: &[u8], b: &[u8], digits: u8) -> Result<Ordering, u8>
    requires at_least_1 { 1 ≤ digits }
    requires at_most_18 { digits ≤ 18 }
    ensures { result ≡ spec.order a.now b.now digits }
{
    order_by(numbers(a, b), compare_padded(a, b), digits)
}

/// Whether a comparison holds of two operands that stand in an order.
pub(crate) fn holds(comparison: Comparison, order: Ordering) -> bool
    ensures { result ≡ spec.holds comparison order }
{
    match comparison {
        Comparison::Equal => matches!(order, Ordering::Equal),
        Comparison::NotEqual => !matches!(order, Ordering::Equal),
        Comparison::Greater => matches!(order, Ordering::Greater),
        Comparison::Less => matches!(order, Ordering::Less),
        Comparison::GreaterOrEqual => !matches!(order, Ordering::Less),
        Comparison::LessOrEqual => !matches!(order, Ordering::Greater),
    }
}
