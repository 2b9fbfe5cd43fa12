// A call of a built-in function by its name.
ghost use Rattle.std.specs.Prelude.{◌≡◌, ◌≤◌, IfSome, IsTrue};
ghost use Rattle.rx_builtin.specs.Answers.{Answers};
ghost use Rattle.rx_builtin.specs.Arguments.{fits};
ghost use Rattle.rx_builtin.specs.Frames.{arg_object};
ghost use Rattle.rx_builtin.specs.Functions.{function_value, is_builtin, signature_of, value_of};

use crate::answer::{in_digits, limited};
use crate::facts::Facts;
use crate::function::{Function, function_named};
use crate::{changing, conversion, cutting, frame, number, searching, word};
use rx_answers::{OUT_OF_RANGE, Refused};
use rx_tree::Text;
use std::alloc::Global;

/// Whether a name is that of a built-in function. Letters are in upper case.
pub fn is_builtin(name: &[u8]) -> bool
    ensures { result ≡ is_builtin name.now }
{
    function_named(name).is_some()
}

// Whether arguments fit a function.
fn fits(function: Function, args: &[Option<Text>]) -> bool
    ensures { result ≡ fits (signature_of function).needed (signature_of function).kinds args.now }
{
    match function {
        Function::Changing(function) => changing::fits(function, args),
        Function::Conversion(function) => conversion::fits(function, args),
        Function::Cutting(function) => cutting::fits(function, args),
        Function::Frame(function) => frame::fits(function, args),
        Function::Number(function) => number::fits(function, args),
        Function::Searching(function) => searching::fits(function, args),
        Function::Word(function) => word::fits(function, args),
    }
}

// The value of a function whose arguments fit.
fn value(
    alloc: Global,
    function: Function,
    args: &[Option<Text>],
    facts: &Facts,
) -> Result<Text, Refused>
    requires at_least_1 { 1 ≤ facts.now.digits }
    requires at_most_18 { facts.now.digits ≤ 18 }
    ensures { Answers result (value_of function args.now facts.now) }
{
    match function {
        Function::Changing(function) => limited(alloc, changing::value(alloc, function, args)),
        Function::Conversion(function) => {
            limited(
                alloc,
                conversion::value(alloc, function, args, facts.digits),
            )
        }
        Function::Cutting(function) => limited(alloc, cutting::value(alloc, function, args)),
        Function::Frame(function) => frame::value(alloc, function, args, facts),
        Function::Number(function) => number::value(alloc, function, args, facts.digits),
        Function::Searching(function) => in_digits(alloc, searching::value(function, args)),
        Function::Word(function) => limited(alloc, word::value(alloc, function, args)),
    }
}

/// The value of a call of a built-in function.
///
/// An argument that is omitted has no text; one that is omitted behind the others counts as an argument. Where ARG gives an
/// argument that is object n, the value is the text `object n`, and [`argument_object`] tells the object itself.
///
/// # Errors
///
/// 40 where the arguments are too few or too many or one is outside its range. For ABS, MAX, MIN and SIGN else 41 where one
/// is no number, else 42 where one has more digits than DIGITS. Else 5 where the value would have more than 16,777,216
/// bytes.
pub fn call(
    alloc: Global,
    name: &[u8],
    args: &[Option<Text>],
    facts: &Facts,
) -> Result<Text, Refused>
    requires builtin { IsTrue (is_builtin name.now) }
    requires at_least_1 { 1 ≤ facts.now.digits }
    requires at_most_18 { facts.now.digits ≤ 18 }
    ensures answer { IfSome (function_value name.now args.now facts.now) (Answers result) }
{
    let function = function_named(name).unwrap();
    if !fits(function, args) {
        return Err(OUT_OF_RANGE);
    }
    value(alloc, function, args, facts)
}

/// The object that a call of ARG with these arguments gives, where argument n of the frame is one. Such a call has the object
/// as its value, and not a text.
pub fn argument_object(args: &[Option<Text>], facts: &Facts) -> Option<u32>
    ensures object { result ≡ arg_object args.now facts.now }
{
    frame::arg_object(args, facts)
}
