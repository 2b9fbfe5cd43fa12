// The functions on words.
use crate::answer::{Answer, number_answer, text_answer};
use crate::argument::Arguments;
use rx_wordfn as wordfn;
use std::alloc::{AllocError, Global};

#[derive(Clone, Copy)]
enum Function {
    Delword,
    Space,
    Subword,
    Word,
    Wordindex,
    Wordlength,
    Wordpos,
    Words,
}

const FUNCTIONS: [(&str, Function); 8] = [
    ("delword", Function::Delword),
    ("space", Function::Space),
    ("subword", Function::Subword),
    ("word", Function::Word),
    ("wordindex", Function::Wordindex),
    ("wordlength", Function::Wordlength),
    ("wordpos", Function::Wordpos),
    ("words", Function::Words),
];

// What a call of a function comes to.
fn called(alloc: Global, function: Function, given: &Arguments) -> Result<Answer, AllocError> {
    let (text, n, length) = (given.text(0), given.count(1), given.number(2));
    match function {
        Function::Delword => text_answer(wordfn::delword(alloc, text, n, length)),
        Function::Space => text_answer(wordfn::space(alloc, text, given.number(1), given.pad(2))),
        Function::Subword => text_answer(wordfn::subword(alloc, text, n, length)),
        Function::Word => text_answer(wordfn::word(alloc, text, n)),
        Function::Wordindex => number_answer(wordfn::wordindex(text, n)),
        Function::Wordlength => number_answer(wordfn::wordlength(text, n)),
        Function::Wordpos => number_answer(wordfn::wordpos(alloc, text, given.text(1), length)),
        Function::Words => Ok(Answer::Number(wordfn::words(text))),
    }
}

fn function_named(name: &str) -> Option<Function> {
    for (known, function) in &FUNCTIONS {
        if *known == name {
            return Some(*function);
        }
    }
    None
}

/// What a call of one of these functions comes to.
pub fn call(alloc: Global, name: &str, given: &Arguments) -> Result<Answer, AllocError> {
    match function_named(name) {
        Some(function) => called(alloc, function, given),
        None => Ok(Answer::Unknown),
    }
}
