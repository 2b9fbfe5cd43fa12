// The conversions.
ghost use Rattle.std.specs.Prelude.{◌≤◌};

use crate::answer::{Answer, number_answer, text_answer};
use crate::argument::Arguments;
use rx_convfn as convfn;
use std::alloc::{AllocError, Global};

#[derive(Clone, Copy)]
enum Function {
    B2x,
    C2d,
    C2x,
    D2c,
    D2x,
    Datatype,
    X2b,
    X2c,
    X2d,
    Xrange,
}

const FUNCTIONS: [(&str, Function); 10] = [
    ("b2x", Function::B2x),
    ("c2d", Function::C2d),
    ("c2x", Function::C2x),
    ("d2c", Function::D2c),
    ("d2x", Function::D2x),
    ("datatype", Function::Datatype),
    ("x2b", Function::X2b),
    ("x2c", Function::X2c),
    ("x2d", Function::X2d),
    ("xrange", Function::Xrange),
];

// The setting of DIGITS that stands second, from 1 to 18.
fn digits(given: &Arguments) -> u8
    ensures at_least_1 { 1 ≤ result }
    ensures at_most_18 { result ≤ 18 }
{
    given.count(1).clamp(1, 18) as u8
}

// What a call of a function comes to.
fn called(alloc: Global, function: Function, given: &Arguments) -> Result<Answer, AllocError> {
    let (text, number) = (given.text(0), given.count(0));
    match function {
        Function::B2x => text_answer(convfn::b2x(alloc, text)),
        Function::C2d => number_answer(convfn::c2d(text, digits(given))),
        Function::C2x => text_answer(convfn::c2x(alloc, text)),
        Function::D2c => text_answer(convfn::d2c(alloc, number)),
        Function::D2x => text_answer(convfn::d2x(alloc, number)),
        Function::Datatype => text_answer(convfn::datatype(alloc, text, given.byte(1))),
        Function::X2b => text_answer(convfn::x2b(alloc, text)),
        Function::X2c => text_answer(convfn::x2c(alloc, text)),
        Function::X2d => number_answer(convfn::x2d(text, digits(given))),
        Function::Xrange => text_answer(convfn::xrange(alloc, given.byte(0), given.byte(1))),
    }
}

fn function_named(name: &str) -> Option<Function> {
    for (known, function) in &FUNCTIONS {
        if *known == name {
            return Some(*function);
        }
    }
    None
}

/// What a call of one of these functions comes to.
pub fn call(alloc: Global, name: &str, given: &Arguments) -> Result<Answer, AllocError> {
    match function_named(name) {
        Some(function) => called(alloc, function, given),
        None => Ok(Answer::Unknown),
    }
}
