// What is told of values.
use rx_heap::{Kind, OutOfMemory, Value};
use std::alloc::Global;

/// A word as a text of its own.
pub fn told_word(alloc: Global, word: &str) -> Result<String, OutOfMemory> {
    Ok(String::from_str(alloc, word)?)
}

/// A number.
pub fn told_number(alloc: Global, number: u32) -> Result<String, OutOfMemory> {
    Ok(format!(in alloc; "{number}")?)
}

/// Some bytes.
pub fn told_bytes(alloc: Global, bytes: &[u8]) -> Result<String, OutOfMemory> {
    Ok(String::from_utf8_lossy(alloc, bytes)?)
}

/// A value.
pub fn told_value(alloc: Global, value: &Value) -> Result<String, OutOfMemory> {
    match value {
        Value::Str(text) => told_bytes(alloc, text.bytes()),
        Value::Ref(object) => Ok(format!(in alloc; "${object}")?),
    }
}

/// A value that is lent, if there is one.
pub fn told_item(alloc: Global, item: Option<&Value>) -> Result<String, OutOfMemory> {
    match item {
        Some(value) => told_value(alloc, value),
        None => told_word(alloc, "none"),
    }
}

/// A value that was taken away, if there was one.
pub fn told_taken(alloc: Global, item: Option<Value>) -> Result<String, OutOfMemory> {
    told_item(alloc, item.as_ref())
}

/// A kind's name.
pub fn kind_name(kind: Kind) -> &'static str {
    match kind {
        Kind::Plain => "plain",
        Kind::ClassObject => "class",
        Kind::Array => "array",
        Kind::Queue => "queue",
        Kind::Directory => "directory",
        Kind::Message => "message",
    }
}
