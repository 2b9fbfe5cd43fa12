// What is told of values, classes and scopes.
use crate::fitting::is_class;
use rx_classes::ClassTable;
use rx_escape::escape;
use rx_tree::{OutOfMemory, Scope, Value};
use std::alloc::Global;

// The most bytes of a string that is told whole.
const LONGEST_TOLD: usize = 200;

/// A word as a text of its own.
pub fn told_word(alloc: Global, word: &str) -> Result<String, OutOfMemory> {
    Ok(String::from_str(alloc, word)?)
}

// A string between quotes. Of a long one the number of bytes is told.
fn told_bytes(alloc: Global, bytes: &[u8]) -> Result<String, OutOfMemory> {
    if bytes.len() > LONGEST_TOLD {
        return Ok(format!(in alloc; "{} bytes", bytes.len())?);
    }
    let text = escape(alloc, bytes)?;
    Ok(format!(in alloc; "\"{text}\"")?)
}

/// A value: a string between quotes, or the number of an object.
pub fn told_value(alloc: Global, value: &Value) -> Result<String, OutOfMemory> {
    match value {
        Value::Str(text) => told_bytes(alloc, text.bytes()),
        Value::Ref(object) => Ok(format!(in alloc; "#{object}")?),
    }
}

/// An answer: a value, or that it is none.
pub fn told_answer(alloc: Global, answer: &Option<Value>) -> Result<String, OutOfMemory> {
    match answer {
        Some(value) => told_value(alloc, value),
        None => told_word(alloc, "none"),
    }
}

/// Arguments, with a blank in front of each, and `-` for each that is omitted.
pub fn told_arguments(alloc: Global, args: &[Option<Value>]) -> Result<String, OutOfMemory> {
    let mut told = String::new(alloc);
    for argument in args {
        told.push_str(" ")?;
        match argument {
            Some(value) => told.push_str(told_value(alloc, value)?.as_str())?,
            None => told.push_str("-")?,
        }
    }
    Ok(told)
}

/// A class by its name, or by its number where it is none.
pub fn told_class(alloc: Global, classes: &ClassTable, class: u32) -> Result<String, OutOfMemory> {
    if is_class(classes, class) {
        return Ok(escape(alloc, classes.name(class).bytes())?);
    }
    Ok(format!(in alloc; "#{class}")?)
}

/// The class of a scope, and whether it is the class's own side.
pub fn told_scope(
    alloc: Global,
    classes: &ClassTable,
    scope: Scope,
) -> Result<String, OutOfMemory> {
    let mut told = told_class(alloc, classes, scope.class)?;
    if scope.class_side {
        told.push_str(" class")?;
    }
    Ok(told)
}
