// Calls of templates.
use crate::line::{Line, Word, number_of, quoted};
use rx_template::{TPart, Template, parse};
use sqlite_items::Items;
use std::alloc::{AllocError, Global};

// The part of a template that is written so.
fn part_of(alloc: Global, word: &Word) -> Result<TPart, AllocError> {
    match word {
        Word::Quoted(bytes) => Ok(TPart::Literal(Items::from_slice(alloc, bytes.as_slice())?)),
        Word::Bare(bytes) => match bytes.as_slice() {
            [b'=', digits @ ..] => Ok(TPart::At(number_of(digits))),
            [b'+', digits @ ..] => Ok(TPart::Forward(number_of(digits))),
            [b'-', digits @ ..] => Ok(TPart::Backward(number_of(digits))),
            [b'.'] => Ok(TPart::Period),
            digits => Ok(TPart::Target(number_of(digits).min(u64::from(u32::MAX)) as u32)),
        },
    }
}

/// What a template cuts a text into: each target's number and its piece.
pub fn tell(alloc: Global, line: &Line) -> Result<String, AllocError> {
    let mut parts = Items::new(alloc);
    for (place, word) in line.words().iter().enumerate() {
        if place > 1 {
            parts.push(part_of(alloc, word)?)?;
        }
    }
    let template = Template { parts };
    let pieces = parse(alloc, &template, line.bytes(1)).map_err(wanting_text)?;
    let mut told = String::new(alloc);
    for (target, piece) in pieces.as_slice() {
        if !told.is_empty() {
            told.push_str(" ")?;
        }
        let piece = quoted(alloc, piece.as_slice())?;
        told.push_str(format!(in alloc; "{target} {piece}")?.as_str())?;
    }
    if told.is_empty() {
        told.push_str("nothing")?;
    }
    Ok(told)
}

fn wanting_text(_error: rx_template::OutOfMemory) -> AllocError {
    AllocError
}
