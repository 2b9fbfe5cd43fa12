// Values and calls as text.
use rx_escape::escape;
use rx_eval::{Pending, Sent};
use rx_tree::{Awaited, OutOfMemory, Text, Value};
use std::alloc::Global;

/// A text as it stands, but for bytes that aren't letters, digits and signs.
pub fn tell_text(alloc: Global, text: &Text) -> Result<String, OutOfMemory> {
    Ok(escape(alloc, text.bytes())?)
}

/// A value: a text between quotes, or `#` and the number of an object.
pub fn tell_value(alloc: Global, value: &Value) -> Result<String, OutOfMemory> {
    match value {
        Value::Str(text) => {
            let text = tell_text(alloc, text)?;
            Ok(format!(in alloc; "\"{text}\"")?)
        }
        Value::Ref(object) => Ok(format!(in alloc; "#{object}")?),
    }
}

/// Arguments in parentheses.
fn tell_args(alloc: Global, args: &[Option<Value>]) -> Result<String, OutOfMemory> {
    let mut told = String::from_str(alloc, "(")?;
    let mut is_first = true;
    for arg in args {
        if !is_first {
            told.push_str(",")?;
        }
        is_first = false;
        if let Some(arg) = arg {
            told.push_str(tell_value(alloc, arg)?.as_str())?;
        }
    }
    told.push_str(")")?;
    Ok(told)
}

// The class in which a method is sought first, behind a colon.
fn tell_scope(alloc: Global, scope: Option<u32>) -> Result<String, OutOfMemory> {
    match scope {
        None => Ok(String::new(alloc)),
        Some(class) => Ok(format!(in alloc; " :{class}")?),
    }
}

fn awaited(awaited: Awaited) -> &'static str {
    match awaited {
        Awaited::Dropped => "nothing",
        Awaited::Anything => "anything",
        Awaited::Message => "message",
        Awaited::Function => "function",
        Awaited::String => "string",
    }
}

/// A call, with how its answer is awaited.
pub fn tell_call(alloc: Global, call: &Pending) -> Result<String, OutOfMemory> {
    let how = awaited(call.awaited);
    match &call.sent {
        Sent::Message(target, name, scope, args) => {
            let target = tell_value(alloc, target)?;
            let name = tell_text(alloc, name)?;
            let scope = tell_scope(alloc, *scope)?;
            let args = tell_args(alloc, args.as_slice())?;
            Ok(format!(in alloc; "message {target} {name}{scope}{args} as {how}")?)
        }
        Sent::Label(name, args) => {
            let name = tell_text(alloc, name)?;
            let args = tell_args(alloc, args.as_slice())?;
            Ok(format!(in alloc; "label {name}{args} as {how}")?)
        }
        Sent::Routine(name, args) => {
            let name = tell_text(alloc, name)?;
            let args = tell_args(alloc, args.as_slice())?;
            Ok(format!(in alloc; "routine {name}{args} as {how}")?)
        }
    }
}
