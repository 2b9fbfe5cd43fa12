// The functions on positions of a text.
use crate::answer::{Answer, number_answer, text_answer};
use crate::argument::Arguments;
use rx_cutfn as cut;
use std::alloc::{AllocError, Global};

#[derive(Clone, Copy)]
enum Function {
    Abbrev,
    Center,
    Changestr,
    Compare,
    Copies,
    Countstr,
    Delstr,
    Insert,
    Lastpos,
    Left,
    Length,
    Lower,
    Overlay,
    Pos,
    Reverse,
    Right,
    Strip,
    Substr,
    Translate,
    Upper,
    Verify,
}

const FUNCTIONS: [(&str, Function); 21] = [
    ("abbrev", Function::Abbrev),
    ("center", Function::Center),
    ("changestr", Function::Changestr),
    ("compare", Function::Compare),
    ("copies", Function::Copies),
    ("countstr", Function::Countstr),
    ("delstr", Function::Delstr),
    ("insert", Function::Insert),
    ("lastpos", Function::Lastpos),
    ("left", Function::Left),
    ("length", Function::Length),
    ("lower", Function::Lower),
    ("overlay", Function::Overlay),
    ("pos", Function::Pos),
    ("reverse", Function::Reverse),
    ("right", Function::Right),
    ("strip", Function::Strip),
    ("substr", Function::Substr),
    ("translate", Function::Translate),
    ("upper", Function::Upper),
    ("verify", Function::Verify),
];

// What a call of a function comes to.
fn called(alloc: Global, function: Function, given: &Arguments) -> Result<Answer, AllocError> {
    let (a, b) = (given.text(0), given.text(1));
    let (second, third) = (given.number(2), given.number(3));
    match function {
        Function::Abbrev => Ok(Answer::Number(cut::abbrev(a, b, second))),
        Function::Center => text_answer(cut::center(alloc, a, given.count(1), given.pad(2))),
        Function::Changestr => text_answer(cut::changestr(alloc, a, b, given.text(2))),
        Function::Compare => Ok(Answer::Number(cut::compare(a, b, given.pad(2)))),
        Function::Copies => text_answer(cut::copies(alloc, a, given.count(1))),
        Function::Countstr => Ok(Answer::Number(cut::countstr(a, b))),
        Function::Delstr => text_answer(cut::delstr(alloc, a, given.count(1), second)),
        Function::Insert => text_answer(cut::insert(alloc, a, b, second, third, given.pad(4))),
        Function::Lastpos => Ok(Answer::Number(cut::lastpos(a, b))),
        Function::Left => text_answer(cut::left(alloc, a, given.count(1), given.pad(2))),
        Function::Length => Ok(Answer::Number(cut::length(a))),
        Function::Lower => text_answer(cut::lower(alloc, a)),
        Function::Overlay => text_answer(cut::overlay(alloc, a, b, second, third, given.pad(4))),
        Function::Pos => number_answer(cut::pos(a, b, second)),
        Function::Reverse => text_answer(cut::reverse(alloc, a)),
        Function::Right => text_answer(cut::right(alloc, a, given.count(1), given.pad(2))),
        Function::Strip => text_answer(cut::strip(alloc, a, given.byte(1), given.byte(2))),
        Function::Substr => text_answer(cut::substr(
            alloc,
            a,
            given.count(1),
            second,
            given.pad(3),
        )),
        Function::Translate => {
            let (output, input) = (given.given_text(1), given.given_text(2));
            text_answer(cut::translate(alloc, a, output, input, given.byte(3)))
        }
        Function::Upper => text_answer(cut::upper(alloc, a)),
        Function::Verify => number_answer(cut::verify(a, b, given.byte(2), third)),
    }
}

fn function_named(name: &str) -> Option<Function> {
    for (known, function) in &FUNCTIONS {
        if *known == name {
            return Some(*function);
        }
    }
    None
}

/// What a call of one of these functions comes to.
pub fn call(alloc: Global, name: &str, given: &Arguments) -> Result<Answer, AllocError> {
    match function_named(name) {
        Some(function) => called(alloc, function, given),
        None => Ok(Answer::Unknown),
    }
}
