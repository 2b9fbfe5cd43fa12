// The instructions of calls and messages.
ghost use Rattle.std.specs.Prelude.{◌≡◌, map, reverse, IfOk};
ghost use Rattle.std.specs.Option.{option_copied};
ghost use Rattle.rx_eval.specs.Built.{IsClass, IsSending, calling_of};
ghost use Rattle.rx_eval.specs.Calling as calls;
ghost use Rattle.rx_eval.specs.Reading.{object_named};
ghost use Rattle.rx_eval.specs.Whole.{given};

use crate::code::{Callee, Calling, Class, Sending};
use crate::facts::Body;
use crate::pile::Pile;
use rx_builtin::is_builtin;
use rx_text::upper;
use rx_tree::{Expr, OutOfMemory, SendPart, Text};
use sqlite_items::Items;
use std::alloc::Global;

// Which arguments are given, the last one first.
fn shape_of(alloc: Global, args: &[Option<Expr>]) -> Result<Items<bool>, OutOfMemory>
    ensures { IfOk result (λ shape. shape ≡ reverse (map given args.now)) }
{
    let mut shape = Pile::new(alloc);
    for arg in args {
        shape.push(arg.is_some())?;
    }
    Ok(shape.turned())
}

/// What a function's name calls in a body.
pub(crate) fn callee(body: &Body, name: &Text, is_string: bool) -> Callee
    ensures { result ≡ calls.callee body.now name.now is_string }
{
    if !is_string && body.labels().get(name.bytes()).is_some() {
        Callee::Label
    } else if is_builtin(name.bytes()) {
        Callee::Builtin
    } else {
        Callee::Routine
    }
}

/// The instruction of a call, behind those of its arguments.
pub(crate) fn calling_of(
    alloc: Global,
    name: &Text,
    is_string: bool,
    callee: Callee,
    args: &[Option<Expr>],
) -> Result<Calling, OutOfMemory>
    ensures { IfOk result (λ call. call ≡ calling_of name.now is_string callee args.now) }
{
    Ok(Calling {
        name: name.share()?,
        is_string,
        callee,
        shape: shape_of(alloc, args)?,
    })
}

/// Whether a string is wanted of each argument of a function.
pub(crate) fn wants_strings(callee: Callee) -> bool
    ensures { result ≡ calls.wants_strings callee }
{
    matches!(callee, Callee::Builtin)
}

/// The object that an environment symbol names in a body.
pub(crate) fn object_named(body: &Body, name: &Text) -> Option<u32>
    ensures { result ≡ object_named body.now name.now }
{
    body.objects().get(name.bytes()).copied()
}

fn class_of(body: &Body, above: &Option<Text>) -> Result<Option<Class>, OutOfMemory>
    ensures { IfOk result (IsClass body.now above.now) }
{
    match above {
        None => Ok(None),
        Some(name) => {
            let object = object_named(body, name);
            let name = name.share()?;
            Ok(Some(Class { name, object }))
        }
    }
}

// The name of the message that is sent.
fn message_of(alloc: Global, name: &Text, bracket: bool) -> Result<Text, OutOfMemory>
    ensures { IfOk result (λ message. message ≡ calls.message_of name.now bracket) }
{
    if bracket {
        return Text::from_slice(alloc, b"[]");
    }
    match upper(alloc, name.bytes()) {
        Ok(message) => Text::from_slice(alloc, message.as_slice()),
        Err(_) => Err(OutOfMemory),
    }
}

/// The instruction of a message, behind those of its arguments.
pub(crate) fn sending_of(
    alloc: Global,
    body: &Body,
    part: &SendPart,
) -> Result<Sending, OutOfMemory>
    ensures { IfOk result (IsSending body.now part.now) }
{
    Ok(Sending {
        name: part.name.share()?,
        message: message_of(alloc, &part.name, part.bracket)?,
        class: class_of(body, &part.above)?,
        shape: shape_of(alloc, part.args.as_slice())?,
        back: part.back,
        bracket: part.bracket,
    })
}
