// The functions that tell of the frame that calls them, of the queue and of the source.
ghost use Rattle.std.specs.Prelude.{◌≡◌, ◌≤◌, ◌-◌, is_some, option_copied};
ghost use Rattle.rx_builtin.specs.Answers.{Answers};
ghost use Rattle.rx_builtin.specs.Arguments.{fits};
ghost use Rattle.rx_builtin.specs.Frames.{arg_object, arg_text, condition_text, given_count, is_as_asked, nth, object_of, of_frame, sourceline_text, argument_text};

use crate::answer::{made, shared, told};
use crate::argument::{self, Kind, byte, number};
use crate::facts::Facts;
use itoa::Buffer;
use rx_answers::{OUT_OF_RANGE, Refused};
use rx_tree::{Caught, Text, Value};
use std::alloc::Global;

/// A function that tells of the frame, of the queue or of the source.
#[derive(Clone, Copy)]
pub enum OfFrame {
    Arg,
    Condition,
    Digits,
    Queued,
    Sourceline,
}

/// Whether arguments fit a function.
pub(crate) fn fits(function: OfFrame, args: &[Option<Text>]) -> bool
    ensures { result ≡ fits (of_frame function).signature.needed (of_frame function).signature.kinds args.now }
{
    match function {
        OfFrame::Arg => argument::fits(0, &[Kind::Count, Kind::Byte], args),
        OfFrame::Condition => argument::fits(0, &[Kind::Byte], args),
        OfFrame::Digits | OfFrame::Queued => argument::fits(0, &[], args),
        OfFrame::Sourceline => argument::fits(0, &[Kind::Count], args),
    }
}

/// The value of a function whose arguments fit.
pub(crate) fn value(
    alloc: Global,
    function: OfFrame,
    a: &[Option<Text>],
    facts: &Facts,
) -> Result<Text, Refused>
    ensures { Answers result ((of_frame function).value a.now facts.now) }
{
    match function {
        OfFrame::Arg => arg(alloc, number(1, a), byte(2, a), facts.arguments.as_slice()),
        OfFrame::Condition => condition(alloc, byte(1, a).unwrap_or(b'I'), &facts.condition),
        OfFrame::Digits => told(alloc, u64::from(facts.digits)),
        OfFrame::Queued => told(alloc, facts.queued),
        OfFrame::Sourceline => sourceline(alloc, number(1, a), facts.lines.as_slice()),
    }
}

// How many arguments there are up to the last one that is given.
fn given_count(arguments: &[Option<Value>]) -> usize
    ensures { result ≡ given_count arguments.now }
{
    let mut rest = arguments;
    while let Some((None, front)) = rest.split_last() {
        rest = front;
    }
    rest.len()
}

// Argument `n`, if it is given.
fn nth(n: u64, arguments: &[Option<Value>]) -> Option<&Value>
    requires { 1 ≤ n }
    ensures { option_copied result ≡ nth n arguments.now }
{
    match arguments.get(n as usize - 1) {
        Some(Some(value)) => Some(value),
        _ => None,
    }
}

// The text of an argument.
fn argument_text(alloc: Global, argument: Option<&Value>) -> Result<Text, Refused>
    ensures { Answers result (Ok (argument_text (option_copied argument.entry))) }
{
    match argument {
        None => made(alloc, &[]),
        Some(Value::Str(text)) => shared(text),
        Some(Value::Ref(object)) => {
            let mut buffer = Buffer::new();
            let mut text = Vec::from_slice(alloc, b"object ")?;
            text.extend_from_slice(buffer.format(*object).as_bytes())?;
            made(alloc, text.as_slice())
        }
    }
}

// Whether an argument is as an option asks.
fn is_as_asked(letter: u8, is_given: bool) -> Option<bool>
    ensures { result ≡ is_as_asked letter is_given }
{
    match letter.to_ascii_uppercase() {
        b'E' => Some(is_given),
        b'O' => Some(!is_given),
        _ => None,
    }
}

// ARG with a number or none, and with the letter of an option or none.
fn arg(
    alloc: Global,
    n: Option<u64>,
    letter: Option<u8>,
    arguments: &[Option<Value>],
) -> Result<Text, Refused>
    ensures { Answers result (arg_text n letter arguments.now) }
{
    let Some(n) = n else {
        return match letter {
            Some(_) => Err(OUT_OF_RANGE),
            None => told(alloc, given_count(arguments) as u64),
        };
    };
    if n == 0 {
        return Err(OUT_OF_RANGE);
    }
    let argument = nth(n, arguments);
    let Some(letter) = letter else {
        return argument_text(alloc, argument);
    };
    match is_as_asked(letter, argument.is_some()) {
        Some(true) => made(alloc, b"1"),
        Some(false) => made(alloc, b"0"),
        None => Err(OUT_OF_RANGE),
    }
}

// CONDITION with the letter of an option.
fn condition(alloc: Global, letter: u8, caught: &Option<Caught>) -> Result<Text, Refused>
    ensures { Answers result (condition_text letter caught.now) }
{
    let letter = letter.to_ascii_uppercase();
    match (letter, caught) {
        (b'C' | b'D' | b'I', None) => made(alloc, &[]),
        (b'C', Some(caught)) => shared(&caught.name),
        (b'D', Some(caught)) => shared(&caught.detail),
        (b'I', Some(caught)) if caught.by_call => made(alloc, b"CALL"),
        (b'I', Some(_)) => made(alloc, b"SIGNAL"),
        _ => Err(OUT_OF_RANGE),
    }
}

// SOURCELINE with a number or none.
fn sourceline(alloc: Global, n: Option<u64>, lines: &[Text]) -> Result<Text, Refused>
    ensures { Answers result (sourceline_text n lines.now) }
{
    let Some(n) = n else {
        return told(alloc, lines.len() as u64);
    };
    if n == 0 {
        return Err(OUT_OF_RANGE);
    }
    match lines.get(n as usize - 1) {
        Some(line) => shared(line),
        None => Err(OUT_OF_RANGE),
    }
}

// The object that an argument is.
fn object_of(argument: Option<&Value>) -> Option<u32>
    ensures { result ≡ object_of (option_copied argument.entry) }
{
    match argument {
        Some(Value::Ref(object)) => Some(*object),
        _ => None,
    }
}

/// The object that a call of ARG gives in place of a text.
pub(crate) fn arg_object(a: &[Option<Text>], facts: &Facts) -> Option<u32>
    ensures { result ≡ arg_object a.now facts.now }
{
    if !fits(OfFrame::Arg, a) || byte(2, a).is_some() {
        return None;
    }
    match number(1, a) {
        Some(n) if n > 0 => object_of(nth(n, facts.arguments.as_slice())),
        _ => None,
    }
}
