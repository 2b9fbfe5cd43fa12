// The methods of Object. A string has them too.
ghost use Rattle.std.specs.Prelude.{◌≡◌, not, List, ℕ, Ok, Err, Result, IfOk, MatchResult};
ghost use Rattle.rx_classes.specs.Classes.{IsClass, class_name};
ghost use Rattle.rx_classes.specs.Orders.{has};
ghost use Rattle.rx_heap.specs.Objects.{IsObject};
ghost use Rattle.rx_tree.specs.declared.class.ClassDef.{ClassDef};
ghost use Rattle.rx_tree.specs.declared.value.Value.{Value};
ghost use Rattle.rx_native.specs.Answers.{Answers};
ghost use Rattle.rx_native.specs.Fitting.{AreThere, Fits, IsThere};
ghost use Rattle.rx_native.specs.ObjectMethods as spec;
ghost use Rattle.rx_native.specs.Outcomes.{gives, on};

use crate::answer::{
    INVALID_ARGUMENT, NIL, NativeAnswer, NativeRefused, RESOURCES_EXHAUSTED, text_answer,
    truth_answer,
};
use crate::argument::{name_alone, no_argument, value_alone};
use crate::starting::start;
use crate::target::{class_of_value, has_method, is_class};
use rx_classes::ClassTable;
use rx_heap::Heap;
use rx_text::upper;
use rx_tree::{Text, Value};
use std::alloc::{AllocError, Global};

/// A method of Object.
#[derive(Clone, Copy)]
pub enum OfObject {
    /// `=` and `==`
    Same,
    /// `\=` and `\==`
    Different,
    Class,
    String,
    Hasmethod,
    Isa,
    Start,
    Init,
}

// Whether two values are one object, or strings of the same bytes.
fn is_same(value: &Value, other: &Value) -> bool
    ensures { result ≡ spec.is_same value.now other.now }
{
    match (value, other) {
        (Value::Str(text), Value::Str(other)) => text.bytes() == other.bytes(),
        (Value::Ref(object), Value::Ref(other)) => *object == *other,
        _ => false,
    }
}

fn same(
    alloc: Global,
    heap: &Heap,
    target: &Value,
    args: &[Option<Value>],
) -> Result<NativeAnswer, NativeRefused>
    ensures { (classes : List ClassDef) → Answers result heap.now heap.now
        (spec.object_answer OfObject.Same classes heap.now target.now args.now) }
{
    let other = value_alone(args)?;
    truth_answer(alloc, is_same(target, other))
}

fn different(
    alloc: Global,
    heap: &Heap,
    target: &Value,
    args: &[Option<Value>],
) -> Result<NativeAnswer, NativeRefused>
    ensures { (classes : List ClassDef) → Answers result heap.now heap.now
        (spec.object_answer OfObject.Different classes heap.now target.now args.now) }
{
    let other = value_alone(args)?;
    truth_answer(alloc, !is_same(target, other))
}

fn class(heap: &Heap, target: &Value, args: &[Option<Value>]) -> Result<NativeAnswer, NativeRefused>
    requires { IsThere heap.now target.now }
    ensures { (classes : List ClassDef) → Answers result heap.now heap.now
        (spec.object_answer OfObject.Class classes heap.now target.now args.now) }
{
    no_argument(args)?;
    let class = class_of_value(heap, target);
    Ok(NativeAnswer::Value(Value::Ref(class)))
}

// `an` before A, E, I, O and U, else `a`.
fn article(name: &[u8]) -> &'static [u8]
    ensures { result.now ≡ spec.article name.now }
{
    match name {
        [b'A' | b'E' | b'I' | b'O' | b'U', ..] => b"an ",
        _ => b"a ",
    }
}

// The string of an object.
fn object_text(
    alloc: Global,
    heap: &Heap,
    classes: &ClassTable,
    object: u32,
) -> Result<Vec<u8>, AllocError>
    requires fits { Fits classes.now heap.now }
    requires there { IsObject heap.now object }
    ensures { IfOk result (λ text. text.items ≡ spec.object_text classes.now heap.now object) }
{
    if object == NIL {
        return Vec::from_slice(alloc, b"The NIL object");
    }
    if is_class(heap, object) {
        let mut text = Vec::from_slice(alloc, b"The ")?;
        text.extend_from_slice(classes.name(object).bytes())?;
        text.extend_from_slice(b" class")?;
        return Ok(text);
    }
    let name = classes.name(heap.class_of(object)).bytes();
    let mut text = Vec::from_slice(alloc, article(name))?;
    text.extend_from_slice(name)?;
    Ok(text)
}

fn string(
    alloc: Global,
    heap: &Heap,
    classes: &ClassTable,
    target: &Value,
    args: &[Option<Value>],
) -> Result<NativeAnswer, NativeRefused>
    requires fits { Fits classes.now heap.now }
    requires there { IsThere heap.now target.now }
    ensures { Answers result heap.now heap.now
        (spec.object_answer OfObject.String classes.now heap.now target.now args.now) }
{
    no_argument(args)?;
    match target {
        Value::Str(text) => Ok(NativeAnswer::Value(Value::Str(text.share()?))),
        Value::Ref(object) => {
            let text = object_text(alloc, heap, classes, *object)?;
            if text.len() > Text::LONGEST {
                return Err(NativeRefused::Raised(RESOURCES_EXHAUSTED));
            }
            text_answer(alloc, text.as_slice())
        }
    }
}

fn hasmethod(
    alloc: Global,
    heap: &Heap,
    classes: &ClassTable,
    target: &Value,
    args: &[Option<Value>],
) -> Result<NativeAnswer, NativeRefused>
    requires fits { Fits classes.now heap.now }
    requires there { IsThere heap.now target.now }
    ensures { Answers result heap.now heap.now
        (spec.object_answer OfObject.Hasmethod classes.now heap.now target.now args.now) }
{
    let name = name_alone(args)?;
    let Ok(name) = upper(alloc, name.bytes()) else {
        return Err(NativeRefused::OutOfMemory);
    };
    let has = has_method(heap, classes, target, name.as_slice())?;
    truth_answer(alloc, has)
}

// The class that a value is.
fn class_in(heap: &Heap, value: &Value) -> Result<u32, u8>
    requires { IsThere heap.now value.now }
    ensures { result ≡ spec.class_in heap.now value.now }
{
    match value {
        Value::Ref(object) if is_class(heap, *object) => Ok(*object),
        _ => Err(INVALID_ARGUMENT),
    }
}

// Whether a class is among some.
fn has(classes: &[u32], class: u32) -> bool
    ensures { result ≡ has classes.now class }
{
    classes.iter().any(|other| class == *other)
}

fn isa(
    alloc: Global,
    heap: &Heap,
    classes: &ClassTable,
    target: &Value,
    args: &[Option<Value>],
) -> Result<NativeAnswer, NativeRefused>
    requires fits { Fits classes.now heap.now }
    requires there { IsThere heap.now target.now }
    requires args_there { AreThere heap.now args.now }
    ensures { Answers result heap.now heap.now
        (spec.object_answer OfObject.Isa classes.now heap.now target.now args.now) }
{
    let value = value_alone(args)?;
    let class = class_in(heap, value)?;
    let order = classes.order(class_of_value(heap, target))?;
    truth_answer(alloc, has(order.as_slice(), class))
}

fn init(heap: &Heap, args: &[Option<Value>]) -> Result<NativeAnswer, NativeRefused>
    ensures { (classes : List ClassDef) (target : Value) → Answers result heap.now heap.now
        (spec.object_answer OfObject.Init classes heap.now target args.now) }
{
    no_argument(args)?;
    Ok(NativeAnswer::Nothing)
}

/// What a method comes to.
pub(crate) fn object_answer(
    alloc: Global,
    method: OfObject,
    heap: &mut Heap,
    classes: &ClassTable,
    target: &Value,
    args: &[Option<Value>],
) -> Result<NativeAnswer, NativeRefused>
    requires fits { Fits classes.now heap.old }
    requires there { IsThere heap.old target.now }
    requires args_there { AreThere heap.old args.now }
    ensures { Answers result heap.old heap.new
        (spec.object_answer method classes.now heap.old target.now args.now) }
{
    match method {
        OfObject::Same => same(alloc, heap, target, args),
        OfObject::Different => different(alloc, heap, target, args),
        OfObject::Class => class(heap, target, args),
        OfObject::String => string(alloc, heap, classes, target, args),
        OfObject::Hasmethod => hasmethod(alloc, heap, classes, target, args),
        OfObject::Isa => isa(alloc, heap, classes, target, args),
        OfObject::Start => start(alloc, heap, target, args),
        OfObject::Init => init(heap, args),
    }
}
