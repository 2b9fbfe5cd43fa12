// The methods of Directory, by the number of the Directory.
ghost use Rattle.std.specs.Prelude.{◌≡◌, ℕ, List, map, option_map, None, Some, Ok, Err, IfOk, MatchResult};
ghost use Rattle.rx_heap.specs.Objects.{IsOfKind, entries_at, places_at};
ghost use Rattle.rx_native.specs.Answers.{Answers};
ghost use Rattle.rx_native.specs.DirectoryMethods as spec;
ghost use Rattle.rx_native.specs.Fitting.{AreThere, IsThere};

use crate::answer::{
    INCORRECT_METHOD_CALL, INVALID_ARGUMENT, NativeAnswer, NativeRefused, item_answer,
    number_answer, taken_answer, truth_answer,
};
use crate::argument::{name_alone, name_of, no_argument, two_values, value_and_name};
use crate::making::make_array_of;
use crate::starting::upper_text;
use rx_heap::{Heap, Kind};
use rx_tree::{OutOfMemory, Text, Value};
use std::alloc::Global;

/// A method of Directory.
#[derive(Clone, Copy)]
pub enum OfDirectory {
    At,
    Put,
    Remove,
    Hasindex,
    Items,
    Makearray,
    Unknown,
}

fn at(heap: &Heap, o: u32, args: &[Option<Value>]) -> Result<NativeAnswer, NativeRefused>
    requires { IsOfKind heap.now o Kind.Directory }
    ensures { Answers result heap.now heap.now
        (spec.directory_answer OfDirectory.At heap.now o args.now) }
{
    let name = name_alone(args)?;
    item_answer(heap.directory_get(o, name.bytes()))
}

fn put(heap: &mut Heap, o: u32, args: &[Option<Value>]) -> Result<NativeAnswer, NativeRefused>
    requires { IsOfKind heap.old o Kind.Directory }
    ensures { Answers result heap.old heap.new
        (spec.directory_answer OfDirectory.Put heap.old o args.now) }
{
    let (value, name) = value_and_name(args)?;
    heap.directory_put(o, name, value.share()?)?;
    Ok(NativeAnswer::Nothing)
}

fn remove(heap: &mut Heap, o: u32, args: &[Option<Value>]) -> Result<NativeAnswer, NativeRefused>
    requires { IsOfKind heap.old o Kind.Directory }
    ensures { Answers result heap.old heap.new
        (spec.directory_answer OfDirectory.Remove heap.old o args.now) }
{
    let name = name_alone(args)?;
    Ok(taken_answer(heap.directory_remove(o, name.bytes())))
}

fn hasindex(
    alloc: Global,
    heap: &Heap,
    o: u32,
    args: &[Option<Value>],
) -> Result<NativeAnswer, NativeRefused>
    requires { IsOfKind heap.now o Kind.Directory }
    ensures { Answers result heap.now heap.now
        (spec.directory_answer OfDirectory.Hasindex heap.now o args.now) }
{
    let name = name_alone(args)?;
    truth_answer(alloc, heap.directory_get(o, name.bytes()).is_some())
}

fn items(
    alloc: Global,
    heap: &Heap,
    o: u32,
    args: &[Option<Value>],
) -> Result<NativeAnswer, NativeRefused>
    requires { IsOfKind heap.now o Kind.Directory }
    ensures { Answers result heap.now heap.now
        (spec.directory_answer OfDirectory.Items heap.now o args.now) }
{
    no_argument(args)?;
    number_answer(alloc, heap.directory_items(o))
}

// The names of a Directory as strings, in their order.
fn names_of(alloc: Global, heap: &Heap, o: u32) -> Result<Vec<Value>, OutOfMemory>
    requires { IsOfKind heap.now o Kind.Directory }
    ensures { IfOk result (λ names. names.items ≡ map spec.name_value (entries_at heap.now o)) }
{
    let mut names = Vec::new(alloc);
    let kept = heap.directory_names(o)?;
    for name in kept.as_slice() {
        names.push(Value::Str(name.share()?))?;
    }
    Ok(names)
}

fn makearray(
    alloc: Global,
    heap: &mut Heap,
    o: u32,
    args: &[Option<Value>],
) -> Result<NativeAnswer, NativeRefused>
    requires { IsOfKind heap.old o Kind.Directory }
    ensures { Answers result heap.old heap.new
        (spec.directory_answer OfDirectory.Makearray heap.old o args.now) }
{
    no_argument(args)?;
    let names = names_of(alloc, heap, o)?;
    make_array_of(heap, names.as_slice())
}

// The name in front of a `=` at the end.
fn name_to_put(name: &[u8]) -> Option<&[u8]>
    ensures { option_map (λ put. put.now) result ≡ spec.name_to_put name.now }
{
    match name.split_last() {
        Some((b'=', put)) => Some(put),
        _ => None,
    }
}

// The Array that a value is.
fn array_in(heap: &Heap, value: &Value) -> Result<u32, u8>
    requires { IsThere heap.now value.now }
    ensures { MatchResult result
        (λ array. (IsOfKind heap.now array Kind.Array) × (spec.places_in heap.now value.now ≡ Ok (places_at heap.now array)))
        (λ number. spec.places_in heap.now value.now ≡ Err number) }
{
    match value {
        Value::Ref(object) if heap.kind(*object) == Kind::Array => Ok(*object),
        _ => Err(INVALID_ARGUMENT),
    }
}

// The entry of a name, for a message that has no arguments.
fn entry(heap: &Heap, o: u32, name: &[u8], array: u32) -> Result<NativeAnswer, NativeRefused>
    requires directory { IsOfKind heap.now o Kind.Directory }
    requires array { IsOfKind heap.now array Kind.Array }
    ensures { Answers result heap.now heap.now
        (spec.entry_answer heap.now o name.now None (places_at heap.now array)) }
{
    if heap.array_size(array) > 0 {
        return Err(NativeRefused::Raised(INCORRECT_METHOD_CALL));
    }
    item_answer(heap.directory_get(o, name))
}

// Puts an entry, for a message that has its value as its only argument.
fn put_entry(
    heap: &mut Heap,
    o: u32,
    name: &Text,
    array: u32,
) -> Result<NativeAnswer, NativeRefused>
    requires directory { IsOfKind heap.old o Kind.Directory }
    requires array { IsOfKind heap.old array Kind.Array }
    ensures { (message : List ℕ) → Answers result heap.old heap.new
        (spec.entry_answer heap.old o message (Some name.now) (places_at heap.old array)) }
{
    if heap.array_size(array) != 1 {
        return Err(NativeRefused::Raised(INCORRECT_METHOD_CALL));
    }
    let Some(value) = heap.array_at(array, 1) else {
        return Err(NativeRefused::Raised(INCORRECT_METHOD_CALL));
    };
    let value = value.share()?;
    heap.directory_put(o, name, value)?;
    Ok(NativeAnswer::Nothing)
}

// What a message of a name, in upper case, comes to.
fn message(
    alloc: Global,
    heap: &mut Heap,
    o: u32,
    name: &Text,
    array: u32,
) -> Result<NativeAnswer, NativeRefused>
    requires directory { IsOfKind heap.old o Kind.Directory }
    requires array { IsOfKind heap.old array Kind.Array }
    ensures { Answers result heap.old heap.new
        (spec.entry_answer heap.old o name.now (spec.name_to_put name.now) (places_at heap.old array)) }
{
    match name_to_put(name.bytes()) {
        None => entry(heap, o, name.bytes(), array),
        Some(put) => {
            let put = Text::from_slice(alloc, put)?;
            put_entry(heap, o, &put, array)
        }
    }
}

fn unknown(
    alloc: Global,
    heap: &mut Heap,
    o: u32,
    args: &[Option<Value>],
) -> Result<NativeAnswer, NativeRefused>
    requires directory { IsOfKind heap.old o Kind.Directory }
    requires args_there { AreThere heap.old args.now }
    ensures { Answers result heap.old heap.new
        (spec.directory_answer OfDirectory.Unknown heap.old o args.now) }
{
    let (name, value) = two_values(args)?;
    let name = name_of(name)?;
    let array = array_in(heap, value)?;
    let name = upper_text(alloc, name)?;
    message(alloc, heap, o, &name, array)
}

/// What a method comes to.
pub(crate) fn directory_answer(
    alloc: Global,
    method: OfDirectory,
    heap: &mut Heap,
    o: u32,
    args: &[Option<Value>],
) -> Result<NativeAnswer, NativeRefused>
    requires directory { IsOfKind heap.old o Kind.Directory }
    requires args_there { AreThere heap.old args.now }
    ensures { Answers result heap.old heap.new (spec.directory_answer method heap.old o args.now) }
{
    match method {
        OfDirectory::At => at(heap, o, args),
        OfDirectory::Put => put(heap, o, args),
        OfDirectory::Remove => remove(heap, o, args),
        OfDirectory::Hasindex => hasindex(alloc, heap, o, args),
        OfDirectory::Items => items(alloc, heap, o, args),
        OfDirectory::Makearray => makearray(alloc, heap, o, args),
        OfDirectory::Unknown => unknown(alloc, heap, o, args),
    }
}
