// What is told of answers.
use rx_escape::escape;
use rx_heap::MessageRow;
use rx_native::{Began, NativeAnswer, NativeRefused};
use rx_tree::{OutOfMemory, Value};
use std::alloc::Global;

/// A word as a text of its own.
pub fn told_word(alloc: Global, word: &str) -> Result<String, OutOfMemory> {
    Ok(String::from_str(alloc, word)?)
}

// A value: a string between quotes, or the number of an object.
fn told_value(alloc: Global, value: &Value) -> Result<String, OutOfMemory> {
    match value {
        Value::Str(text) => {
            let text = escape(alloc, text.bytes())?;
            Ok(format!(in alloc; "'{text}'")?)
        }
        Value::Ref(object) => Ok(format!(in alloc; "${object}")?),
    }
}

/// An answer, or the error that is raised.
pub fn told_answer(
    alloc: Global,
    answer: Result<NativeAnswer, NativeRefused>,
) -> Result<String, OutOfMemory> {
    match answer {
        Ok(NativeAnswer::Value(value)) => told_value(alloc, &value),
        Ok(NativeAnswer::Nothing) => told_word(alloc, "no value"),
        Ok(NativeAnswer::Begin(Began::New(object))) => Ok(format!(in alloc; "new ${object}")?),
        Ok(NativeAnswer::Begin(Began::Start(message))) => {
            Ok(format!(in alloc; "start ${message}")?)
        }
        Err(NativeRefused::Raised(number)) => Ok(format!(in alloc; "error {number}")?),
        Err(NativeRefused::OutOfMemory) => Err(OutOfMemory),
    }
}

/// What a Message sends.
pub fn told_row(alloc: Global, row: &MessageRow) -> Result<String, OutOfMemory> {
    let target = told_value(alloc, &row.target)?;
    let name = escape(alloc, row.name.bytes())?;
    let used = if row.used { "used" } else { "unused" };
    let mut told = format!(in alloc; "{target} {name} {used}")?;
    for argument in row.args.as_slice() {
        told.push_str(" ")?;
        match argument {
            Some(value) => told.push_str(told_value(alloc, value)?.as_str())?,
            None => told.push_str("-")?,
        }
    }
    Ok(told)
}
