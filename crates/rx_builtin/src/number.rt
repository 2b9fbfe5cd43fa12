// The functions on whole numbers within DIGITS.
ghost use Rattle.std.specs.Prelude.{◌≡◌, ◌^◌, ◌<◌, ◌≤◌, IsTrue, map, pos, unsigned_abs};
ghost use Rattle.std.specs.List.{list_all};
ghost use Rattle.rx_whole.specs.Number.{text_of};
ghost use Rattle.rx_builtin.specs.Answers.{Answers};
ghost use Rattle.rx_builtin.specs.Arguments.{fits};
ghost use Rattle.rx_builtin.specs.Numbers.{given, greatest, is_number, is_within, least, made_of, number_of, on_numbers, first, sign};

use crate::answer::made;
use crate::argument::{self, Kind};
use itoa::Buffer;
use rx_answers::Refused;
use rx_tree::Text;
use rx_whole::{Numeral, OVERFLOW, compare, number_text, read_number};
use std::alloc::Global;

// The error of an argument that is no number.
const NO_NUMBER: u8 = 41;

/// A function on whole numbers.
#[derive(Clone, Copy)]
pub enum OnNumbers {
    Abs,
    Max,
    Min,
    Sign,
}

/// Whether arguments fit a function.
pub(crate) fn fits(function: OnNumbers, args: &[Option<Text>]) -> bool
    ensures { result ≡ fits (on_numbers function).signature.needed (on_numbers function).signature.kinds args.now }
{
    match function {
        OnNumbers::Abs | OnNumbers::Sign => argument::fits(1, &[Kind::Number], args),
        OnNumbers::Max | OnNumbers::Min => argument::fits(1, &[Kind::Number; 20], args),
    }
}

// The text of a number that is given.
fn given(argument: &Option<Text>) -> &[u8]
    ensures { result.now ≡ given argument.now }
{
    match argument {
        Some(text) => text.bytes(),
        None => &[],
    }
}

fn is_number(argument: &Option<Text>) -> bool
    ensures { result ≡ is_number argument.now }
{
    !matches!(read_number(given(argument)), Numeral::NoNumber)
}

// The number of one that has at most 18 digits.
fn number_of(argument: &Option<Text>) -> i64
    requires short { IsTrue (is_within 18 argument.now) }
    ensures number { result ≡ number_of argument.now }
    ensures small { unsigned_abs result < 10 ^ 18 }
{
    match read_number(given(argument)) {
        Numeral::Whole(number) => number,
        _ => 0,
    }
}

// Whether a number has at most `digits` digits. What is no number counts as 0.
fn is_within(argument: &Option<Text>, digits: u8) -> bool
    requires at_least_1 { 1 ≤ digits }
    requires at_most_18 { digits ≤ 18 }
    ensures { result ≡ is_within digits argument.now }
{
    match read_number(given(argument)) {
        Numeral::Whole(number) => compare(number, 0, digits).is_ok(),
        Numeral::Long => false,
        Numeral::NoNumber => true,
    }
}

// The first of some numbers.
fn first(a: &[Option<Text>]) -> i64
    requires short { IsTrue (list_all (is_within 18) a.now) }
    ensures number { result ≡ first (map number_of a.now) }
    ensures small { unsigned_abs result < 10 ^ 18 }
{
    match a {
        [argument, ..] => number_of(argument),
        [] => 0,
    }
}

// The greatest of some numbers.
fn greatest(a: &[Option<Text>]) -> i64
    requires short { IsTrue (list_all (is_within 18) a.now) }
    ensures { result ≡ greatest (map number_of a.now) }
{
    let mut greatest = first(a);
    let mut rest = a;
    while let [argument, more @ ..] = rest {
        let number = number_of(argument);
        if greatest < number {
            greatest = number;
        }
        rest = more;
    }
    greatest
}

// The least of some numbers.
fn least(a: &[Option<Text>]) -> i64
    requires short { IsTrue (list_all (is_within 18) a.now) }
    ensures { result ≡ least (map number_of a.now) }
{
    let mut least = first(a);
    let mut rest = a;
    while let [argument, more @ ..] = rest {
        let number = number_of(argument);
        if number < least {
            least = number;
        }
        rest = more;
    }
    least
}

// 1, 0 or -1, for a number above, at or below 0.
fn sign(number: i64) -> i64
    ensures { result ≡ sign number }
{
    if number < 0 {
        -1
    } else if number == 0 {
        0
    } else {
        1
    }
}

// The number that a function makes of some numbers.
fn made_of(function: OnNumbers, a: &[Option<Text>]) -> i64
    requires short { IsTrue (list_all (is_within 18) a.now) }
    ensures { result ≡ made_of function (map number_of a.now) }
{
    match function {
        OnNumbers::Abs => first(a).abs(),
        OnNumbers::Max => greatest(a),
        OnNumbers::Min => least(a),
        OnNumbers::Sign => sign(first(a)),
    }
}

fn are_numbers(a: &[Option<Text>]) -> bool
    ensures { result ≡ list_all is_number a.now }
{
    a.iter().all(|argument| is_number(argument))
}

// Whether numbers have at most `digits` digits.
fn are_within(a: &[Option<Text>], digits: u8) -> bool
    requires at_least_1 { 1 ≤ digits }
    requires at_most_18 { digits ≤ 18 }
    ensures { result ≡ list_all (is_within digits) a.now }
{
    a.iter().all(|argument| is_within(argument, digits))
}

/// The value of a function whose arguments fit, under DIGITS `digits`.
pub(crate) fn value(
    alloc: Global,
    function: OnNumbers,
    a: &[Option<Text>],
    digits: u8,
) -> Result<Text, Refused>
    requires at_least_1 { 1 ≤ digits }
    requires at_most_18 { digits ≤ 18 }
    ensures { Answers result ((on_numbers function).value a.now digits) }
{
    if !are_numbers(a) {
        return Err(Refused::Raised(NO_NUMBER));
    }
    if !are_within(a, digits) {
        return Err(Refused::Raised(OVERFLOW));
    }
    let mut buffer = Buffer::new();
    made(alloc, number_text(made_of(function, a), &mut buffer))
}
