// All operators, by their families.
ghost use Rattle.std.specs.Prelude.{◌≡◌, ◌≤◌, length, IfOk};
ghost use Rattle.rx_answers.specs.Answers.{AnswersText};
ghost use Rattle.rx_operators.specs.Operators.{compared, in_digits, joined, prefix_value, truth, truth_of, value, value_in};

use crate::arithmetic::{calculate, numbers, zero_and};
use crate::comparison::{holds, order};
use crate::family::{Arithmetic, Comparison, Family, family_of};
use crate::logic::{connected, negated};
use itoa::Buffer;
use rx_answers::{Bytes, LONGEST, Refused, TOO_LONG};
use rx_text::compare_strict;
use rx_tree::{Oper, Text};
use rx_whole::number_text;
use std::alloc::Global;
use std::cmp::Ordering;

// The refusal of an operator that stands where it can't: an invalid expression.
const INVALID: Refused = Refused::Raised(35);

// A number as a text.
fn told(alloc: Global, number: Result<i64, u8>) -> Bytes
    ensures value { AnswersText result (in_digits number) }
    ensures short { IfOk result (λ bytes. length bytes.items ≤ LONGEST) }
{
    match number {
        Ok(number) => {
            let mut buffer = Buffer::new();
            Ok(Vec::from_slice(alloc, number_text(number, &mut buffer))?)
        }
        Err(error) => Err(Refused::Raised(error)),
    }
}

// A logical value as a text.
fn truth(alloc: Global, is: bool) -> Bytes
    ensures value { AnswersText result (Ok (truth is)) }
    ensures short { IfOk result (λ bytes. length bytes.items ≤ LONGEST) }
{
    let text = if is { b"1" } else { b"0" };
    Ok(Vec::from_slice(alloc, text)?)
}

// A logical value as a text, where there is one.
fn truth_of(alloc: Global, is: Result<bool, u8>) -> Bytes
    ensures value { AnswersText result (truth_of is) }
    ensures short { IfOk result (λ bytes. length bytes.items ≤ LONGEST) }
{
    match is {
        Ok(is) => truth(alloc, is),
        Err(error) => Err(Refused::Raised(error)),
    }
}

// Whether a comparison holds, as a text.
fn compared(alloc: Global, comparison: Comparison, order: Result<Ordering, u8>) -> Bytes
    ensures value { AnswersText result (compared comparison order) }
    ensures short { IfOk result (λ bytes. length bytes.items ≤ LONGEST) }
{
    match order {
        Ok(order) => truth(alloc, holds(comparison, order)),
        Err(error) => Err(Refused::Raised(error)),
    }
}

// Two texts with something between them.
fn joined(alloc: Global, a: &[u8], between: &[u8], b: &[u8]) -> Bytes
    requires first { length a.now ≤ LONGEST }
    requires middle { length between.now ≤ LONGEST }
    requires second { length b.now ≤ LONGEST }
    ensures value { AnswersText result (joined a.now between.now b.now) }
    ensures short { IfOk result (λ bytes. length bytes.items ≤ LONGEST) }
{
    let length = a.len() + between.len() + b.len();
    if length > LONGEST {
        return Err(TOO_LONG);
    }
    let mut bytes = Vec::with_capacity(alloc, length)?;
    bytes.extend_from_slice(a)?;
    bytes.extend_from_slice(between)?;
    bytes.extend_from_slice(b)?;
    Ok(bytes)
}

// What an operator of a family gives between two texts.
fn value_in(alloc: Global, family: Family, a: &Text, b: &Text, digits: u8) -> Bytes
    requires at_least_1 { 1 ≤ digits }
    requires at_most_18 { digits ≤ 18 }
    ensures value { AnswersText result (value_in family a.now b.now digits) }
    ensures short { IfOk result (λ bytes. length bytes.items ≤ LONGEST) }
{
    let (a, b) = (a.bytes(), b.bytes());
    match family {
        Family::Arithmetic(operator) => { told(alloc, calculate(operator, numbers(a, b), digits)) }
        Family::Comparison(comparison) => compared(alloc, comparison, order(a, b, digits)),
        Family::StrictComparison(comparison) => {
            compared(alloc, comparison, Ok(compare_strict(a, b)))
        }
        Family::Logic(connective) => truth_of(alloc, connected(connective, a, b)),
        Family::Join => joined(alloc, a, &[], b),
        Family::BlankJoin => joined(alloc, a, b" ", b),
        Family::NotBetween => Err(INVALID),
    }
}

/// The value of an operator between two strings, under DIGITS `digits`.
///
/// # Errors
///
/// Of arithmetic 41 where an operand is no number; else 42 where one has more than `digits` digits, a divisor is 0 or the
/// result has too many; else 26 for a remainder under `/` and for a negative exponent. 42 where `=`, `<` or the like compares
/// numbers of more digits. 34 where a logical value is neither `0` nor `1`. 5 where a join would have more than 16,777,216
/// bytes. 35 for an operator that stands between no operands.
#[tactic(auto, unfolding(crate::specs::Operators::value))]
pub fn operate(alloc: Global, oper: Oper, a: &Text, b: &Text, digits: u8) -> Bytes
    requires at_least_1 { 1 ≤ digits }
    requires at_most_18 { digits ≤ 18 }
    ensures value { AnswersText result (value oper a.now b.now digits) }
    ensures short { IfOk result (λ bytes. length bytes.items ≤ LONGEST) }
{
    value_in(alloc, family_of(oper), a, b, digits)
}

/// The value of an operator in front of a string, under DIGITS `digits`.
///
/// # Errors
///
/// Of `+` and `-` 41 where the string is no number, else 42 where it has more than `digits` digits. Of `\` 34 where it is
/// neither `0` nor `1`. 35 for another operator.
#[tactic(auto, unfolding(crate::specs::Operators::prefix_value))]
pub fn operate_before(alloc: Global, oper: Oper, a: &Text, digits: u8) -> Bytes
    requires at_least_1 { 1 ≤ digits }
    requires at_most_18 { digits ≤ 18 }
    ensures value { AnswersText result (prefix_value oper a.now digits) }
    ensures short { IfOk result (λ bytes. length bytes.items ≤ LONGEST) }
{
    match oper {
        Oper::Plus => {
            told(
                alloc,
                calculate(Arithmetic::Add, zero_and(a.bytes()), digits),
            )
        }
        Oper::Minus => {
            told(
                alloc,
                calculate(Arithmetic::Subtract, zero_and(a.bytes()), digits),
            )
        }
        Oper::Not => truth_of(alloc, negated(a.bytes())),
        _ => Err(INVALID),
    }
}
