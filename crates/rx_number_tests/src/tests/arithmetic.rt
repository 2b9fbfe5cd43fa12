// Arithmetic within DIGITS. Each case is the operands, DIGITS and the answer.
use rx_whole::{add, compare, divide, multiply, power, quotient, remainder, subtract};
use std::cmp::Ordering;
use std::process::Abort;

type Case = (i64, i64, u8, Result<i64, u8>);

#[derive(Clone, Copy)]
enum Operator {
    Add,
    Subtract,
    Multiply,
    Divide,
    Quotient,
    Remainder,
    Power,
}

// An operator gives its operands this answer.
fn assert_gives(rt: &impl Abort, operator: Operator, case: &Case) {
    let (a, b, digits, want) = *case;
    assert!(rt; 1 <= digits && digits <= 18);
    let given = match operator {
        Operator::Add => add(a, b, digits),
        Operator::Subtract => subtract(a, b, digits),
        Operator::Multiply => multiply(a, b, digits),
        Operator::Divide => divide(a, b, digits),
        Operator::Quotient => quotient(a, b, digits),
        Operator::Remainder => remainder(a, b, digits),
        Operator::Power => power(a, b, digits),
    };
    assert_eq!(rt; given, want);
}

#[test]
fn adds(rt: HostRuntime) {
    let cases: [Case; 12] = [
        (1, 1, 9, Ok(2)),
        (999999998, 1, 9, Ok(999999999)),
        (999999999, 1, 9, Err(42)),
        (-999999999, -1, 9, Err(42)),
        (500000000, -500000000, 9, Ok(0)),
        (1000000000, 0, 9, Err(42)),
        (0, 1000000000, 9, Err(42)),
        (1000000000, -1, 9, Err(42)),
        (5, 4, 1, Ok(9)),
        (5, 5, 1, Err(42)),
        (999999999999999998, 1, 18, Ok(999999999999999999)),
        (999999999999999999, 1, 18, Err(42)),
    ];
    for case in &cases {
        assert_gives(&rt, Operator::Add, case);
    }
}

#[test]
fn subtracts(rt: HostRuntime) {
    let cases: [Case; 6] = [
        (0, 5, 9, Ok(-5)),
        (-999999998, 1, 9, Ok(-999999999)),
        (-999999999, 1, 9, Err(42)),
        (7, 1000000000, 9, Err(42)),
        (999999999999999999, -1, 18, Err(42)),
        (-999999999999999999, -999999999999999999, 18, Ok(0)),
    ];
    for case in &cases {
        assert_gives(&rt, Operator::Subtract, case);
    }
}

#[test]
fn multiplies(rt: HostRuntime) {
    let cases: [Case; 10] = [
        (-3, 4, 9, Ok(-12)),
        (0, -4, 9, Ok(0)),
        (31622, 31622, 9, Ok(999950884)),
        (-31623, 31623, 9, Err(42)),
        (99999, 10000, 9, Ok(999990000)),
        (100000, 10000, 9, Err(42)),
        (0, 1000000000, 9, Err(42)),
        (999999999, 999999999, 18, Ok(999999998000000001)),
        (1000000000, 1000000000, 18, Err(42)),
        (-999999999999999999, 999999999999999999, 18, Err(42)),
    ];
    for case in &cases {
        assert_gives(&rt, Operator::Multiply, case);
    }
}

#[test]
fn divides(rt: HostRuntime) {
    let cases: [Case; 10] = [
        (8, 2, 9, Ok(4)),
        (-8, 2, 9, Ok(-4)),
        (0, -5, 9, Ok(0)),
        (7, 2, 9, Err(26)),
        (-7, -2, 9, Err(26)),
        (7, 0, 9, Err(42)),
        (0, 0, 9, Err(42)),
        (1000000000, 3, 9, Err(42)),
        (1000000000, 0, 9, Err(42)),
        (999999999999999999, -1, 18, Ok(-999999999999999999)),
    ];
    for case in &cases {
        assert_gives(&rt, Operator::Divide, case);
    }
}

#[test]
fn divides_to_whole_numbers_and_remainders(rt: HostRuntime) {
    // The operands, and what `%` and `//` give at 9 digits.
    let cases: [(i64, i64, Result<i64, u8>, Result<i64, u8>); 9] = [
        (7, 2, Ok(3), Ok(1)),
        (-7, 2, Ok(-3), Ok(-1)),
        (7, -2, Ok(-3), Ok(1)),
        (-7, -2, Ok(3), Ok(-1)),
        (6, 3, Ok(2), Ok(0)),
        (1, 2, Ok(0), Ok(1)),
        (5, 0, Err(42), Err(42)),
        (1000000000, 1, Err(42), Err(42)),
        (10, 1000000000, Err(42), Err(42)),
    ];
    for (a, b, whole, rest) in cases {
        assert_gives(&rt, Operator::Quotient, &(a, b, 9, whole));
        assert_gives(&rt, Operator::Remainder, &(a, b, 9, rest));
    }
}

#[test]
fn raises_to_powers(rt: HostRuntime) {
    let cases: [Case; 24] = [
        (10, 8, 9, Ok(100000000)),
        (10, 9, 9, Err(42)),
        (0, 0, 9, Ok(1)),
        (0, 5, 9, Ok(0)),
        (7, 0, 9, Ok(1)),
        (-7, 1, 9, Ok(-7)),
        (-2, 3, 9, Ok(-8)),
        (-2, 4, 9, Ok(16)),
        (3, 18, 9, Ok(387420489)),
        (3, 19, 9, Err(42)),
        (99, 999999999, 9, Err(42)),
        (2, -1, 9, Err(26)),
        (0, -1, 9, Err(26)),
        (1, -1, 9, Err(26)),
        (2, -1000000000, 9, Err(42)),
        (1000000000, -1, 9, Err(42)),
        (0, 999999999999999999, 18, Ok(0)),
        (1, 999999999999999999, 18, Ok(1)),
        (-1, 999999999999999999, 18, Ok(-1)),
        (-1, 999999999999999998, 18, Ok(1)),
        (-2, 59, 18, Ok(-576460752303423488)),
        (2, 60, 18, Err(42)),
        (2, 63, 18, Err(42)),
        (999999999999999999, 999999999999999999, 18, Err(42)),
    ];
    for case in &cases {
        assert_gives(&rt, Operator::Power, case);
    }
}

// Two numbers are so compared, at so many digits.
fn assert_compares(rt: &impl Abort, a: i64, b: i64, digits: u8, want: Result<Ordering, u8>) {
    assert!(rt; 1 <= digits && digits <= 18);
    assert_eq!(rt; compare(a, b, digits), want);
}

#[test]
fn compares(rt: HostRuntime) {
    let cases: [(i64, i64, u8, Result<Ordering, u8>); 6] = [
        (1, 2, 9, Ok(Ordering::Less)),
        (2, 2, 9, Ok(Ordering::Equal)),
        (-2, -3, 9, Ok(Ordering::Greater)),
        (1000000000, 1, 9, Err(42)),
        (1, -1000000000, 9, Err(42)),
        (1000000000, 999999999, 10, Ok(Ordering::Greater)),
    ];
    for (a, b, digits, want) in cases {
        assert_compares(&rt, a, b, digits, want);
    }
}
