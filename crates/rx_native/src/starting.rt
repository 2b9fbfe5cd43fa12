// START of Object.
ghost use Rattle.std.specs.Prelude.{◌≡◌, ◌&&◌, List, IfOk};
ghost use Rattle.std.specs.Str.{str_to_ascii_uppercase};
ghost use Rattle.rx_heap.specs.Kept.{sending};
ghost use Rattle.rx_native.specs.Answers.{Answers};
ghost use Rattle.rx_native.specs.Fitting.{IsThere};
ghost use Rattle.rx_native.specs.ObjectMethods as spec;
ghost use Rattle.rx_native.specs.Targets as targets;
ghost use Rattle.rx_native.specs.declared.object.OfObject.TheVariants as method;
ghost use Rattle.rx_tree.specs.declared.class.ClassDef.{ClassDef};

use crate::answer::{Began, INCORRECT_METHOD_CALL, NativeAnswer, NativeRefused};
use crate::argument::name_and_rest;
use crate::making::make;
use crate::target::is_message;
use rx_heap::{Heap, Kind, MessageRow, Outcome};
use rx_text::upper;
use rx_tree::{OutOfMemory, Text, Value};
use sqlite_items::Items;
use std::alloc::Global;

// The class Message.
const MESSAGE: u32 = 8;

// Whether a message of this name waits for a Message.
fn waits_for_message(name: &[u8]) -> bool
    ensures { result ≡ spec.waits_for_message name.now }
{
    name == b"SEND".as_slice() || name == b"RESULT".as_slice()
}

// Equal arguments, or want of memory.
fn share_arguments(
    alloc: Global,
    args: &[Option<Value>],
) -> Result<Items<Option<Value>>, OutOfMemory>
    ensures { IfOk result (λ shared. shared ≡ args.now) }
{
    let mut shared = Items::new(alloc);
    for argument in args {
        match argument {
            None => shared.push(None)?,
            Some(value) => shared.push(Some(value.share()?))?,
        }
    }
    Ok(shared)
}

// The row of a Message that is to be sent, or want of memory.
fn row_to_send(
    alloc: Global,
    target: &Value,
    name: Text,
    args: &[Option<Value>],
) -> Result<MessageRow, OutOfMemory>
    ensures { IfOk result (λ row. sending row ≡ spec.sending target.now name args.now) }
{
    Ok(MessageRow {
        target: target.share()?,
        name,
        args: share_arguments(alloc, args)?,
        used: true,
        outcome: Outcome::Waiting,
        notify: Items::new(alloc),
    })
}

// A text in upper case, or want of memory.
pub(crate) fn upper_text(alloc: Global, text: &Text) -> Result<Text, OutOfMemory>
    ensures { IfOk result (λ upper. upper ≡ str_to_ascii_uppercase text.now) }
{
    match upper(alloc, text.bytes()) {
        Ok(upper) => Text::from_slice(alloc, upper.as_slice()),
        Err(_) => Err(OutOfMemory),
    }
}

// Whether a Message is sent what waits for a Message.
fn is_refused(heap: &Heap, target: &Value, name: &[u8]) -> bool
    requires { IsThere heap.now target.now }
    ensures { result ≡ (targets.is_message heap.now target.now && spec.waits_for_message name.now) }
{
    is_message(heap, target) && waits_for_message(name)
}

// Makes a Message of this name, and begins it.
fn start_named(
    alloc: Global,
    heap: &mut Heap,
    target: &Value,
    name: Text,
    args: &[Option<Value>],
) -> Result<NativeAnswer, NativeRefused>
    requires there { IsThere heap.old target.now }
    ensures { Answers result heap.old heap.new (spec.starts heap.old target.now name args.now) }
{
    if is_refused(heap, target, name.bytes()) {
        return Err(NativeRefused::Raised(INCORRECT_METHOD_CALL));
    }
    let row = row_to_send(alloc, target, name, args)?;
    let message = make(heap, MESSAGE, Kind::Message)?;
    *heap.message_mut(message) = row;
    Ok(NativeAnswer::Begin(Began::Start(message)))
}

/// Makes a Message, and begins it.
pub(crate) fn start(
    alloc: Global,
    heap: &mut Heap,
    target: &Value,
    args: &[Option<Value>],
) -> Result<NativeAnswer, NativeRefused>
    requires there { IsThere heap.old target.now }
    ensures { (classes : List ClassDef) → Answers result heap.old heap.new
        (spec.object_answer method.Start classes heap.old target.now args.now) }
{
    let (name, rest) = name_and_rest(args)?;
    let name = upper_text(alloc, name)?;
    start_named(alloc, heap, target, name, rest)
}
