// The methods of Array, by the number of the Array, and those of the class Array itself.
ghost use Rattle.std.specs.Prelude.{◌≡◌, ◌≤◌, length, IfOk};
ghost use Rattle.rx_builtin.specs.Frames.{given_count};
ghost use Rattle.rx_heap.specs.Objects.{IsOfKind, places_at};
ghost use Rattle.rx_native.specs.Answers.{Answers};
ghost use Rattle.rx_native.specs.ArrayMethods as spec;

use crate::answer::{
    Began, INCORRECT_METHOD_CALL, NativeAnswer, NativeRefused, item_answer, number_answer,
    taken_answer, truth_answer,
};
use crate::argument::{index_alone, no_argument, size_alone, value_alone, value_and_index};
use crate::making::{make, make_array_of, push_shared};
use rx_heap::{Heap, Kind};
use rx_tree::{OutOfMemory, Value};
use std::alloc::Global;

/// A method of the class Array.
#[derive(Clone, Copy)]
pub enum OfArrayClass {
    New,
    Of,
}

/// A method of Array.
#[derive(Clone, Copy)]
pub enum OfArray {
    At,
    Put,
    Append,
    Remove,
    Hasindex,
    Items,
    Size,
    Makearray,
}

fn new(heap: &mut Heap, class: u32, args: &[Option<Value>]) -> Result<NativeAnswer, NativeRefused>
    ensures { Answers result heap.old heap.new
        (spec.array_class_answer OfArrayClass.New heap.old class args.now) }
{
    let size = size_alone(args)?;
    let array = make(heap, class, Kind::Array)?;
    heap.array_resize(array, size)?;
    Ok(NativeAnswer::Begin(Began::New(array)))
}

// How many arguments there are up to the last one that is given.
fn given_count(args: &[Option<Value>]) -> usize
    ensures count { result ≡ given_count args.now }
    ensures within { result ≤ length args.now }
{
    let mut rest = args;
    while let Some((None, front)) = rest.split_last() {
        rest = front;
    }
    rest.len()
}

// Makes an Array with the arguments that are given at their indexes.
fn make_array_with(
    heap: &mut Heap,
    class: u32,
    args: &[Option<Value>],
) -> Result<NativeAnswer, NativeRefused>
    ensures { Answers result heap.old heap.new
        (spec.makes_array heap.old class args.now (λ array. NativeAnswer.Value (Value.Ref array))) }
{
    if args.len() > Heap::MOST_PLACES as usize {
        return Err(NativeRefused::Raised(INCORRECT_METHOD_CALL));
    }
    let array = make(heap, class, Kind::Array)?;
    heap.array_resize(array, args.len() as u32)?;
    let mut i = 0;
    for argument in args {
        i += 1;
        match argument {
            Some(value) => heap.array_put(array, i, value.share()?)?,
            None => {}
        }
    }
    Ok(NativeAnswer::Value(Value::Ref(array)))
}

fn of(heap: &mut Heap, class: u32, args: &[Option<Value>]) -> Result<NativeAnswer, NativeRefused>
    ensures { Answers result heap.old heap.new
        (spec.array_class_answer OfArrayClass.Of heap.old class args.now) }
{
    make_array_with(heap, class, &args[..given_count(args)])
}

/// What a method of the class comes to.
pub(crate) fn array_class_answer(
    method: OfArrayClass,
    heap: &mut Heap,
    class: u32,
    args: &[Option<Value>],
) -> Result<NativeAnswer, NativeRefused>
    ensures { Answers result heap.old heap.new
        (spec.array_class_answer method heap.old class args.now) }
{
    match method {
        OfArrayClass::New => new(heap, class, args),
        OfArrayClass::Of => of(heap, class, args),
    }
}

fn at(heap: &Heap, array: u32, args: &[Option<Value>]) -> Result<NativeAnswer, NativeRefused>
    requires { IsOfKind heap.now array Kind.Array }
    ensures { Answers result heap.now heap.now
        (spec.array_answer OfArray.At heap.now array args.now) }
{
    let i = index_alone(args)?;
    item_answer(heap.array_at(array, i))
}

fn put(heap: &mut Heap, array: u32, args: &[Option<Value>]) -> Result<NativeAnswer, NativeRefused>
    requires { IsOfKind heap.old array Kind.Array }
    ensures { Answers result heap.old heap.new
        (spec.array_answer OfArray.Put heap.old array args.now) }
{
    let (value, i) = value_and_index(args)?;
    heap.array_put(array, i, value.share()?)?;
    Ok(NativeAnswer::Nothing)
}

fn append(
    alloc: Global,
    heap: &mut Heap,
    array: u32,
    args: &[Option<Value>],
) -> Result<NativeAnswer, NativeRefused>
    requires { IsOfKind heap.old array Kind.Array }
    ensures { Answers result heap.old heap.new
        (spec.array_answer OfArray.Append heap.old array args.now) }
{
    let value = value_alone(args)?;
    let size = heap.array_size(array);
    if size >= Heap::MOST_PLACES {
        return Err(NativeRefused::Raised(INCORRECT_METHOD_CALL));
    }
    let answer = number_answer(alloc, size + 1)?;
    heap.array_put(array, size + 1, value.share()?)?;
    Ok(answer)
}

fn remove(
    heap: &mut Heap,
    array: u32,
    args: &[Option<Value>],
) -> Result<NativeAnswer, NativeRefused>
    requires { IsOfKind heap.old array Kind.Array }
    ensures { Answers result heap.old heap.new
        (spec.array_answer OfArray.Remove heap.old array args.now) }
{
    let i = index_alone(args)?;
    Ok(taken_answer(heap.array_remove(array, i)))
}

fn hasindex(
    alloc: Global,
    heap: &Heap,
    array: u32,
    args: &[Option<Value>],
) -> Result<NativeAnswer, NativeRefused>
    requires { IsOfKind heap.now array Kind.Array }
    ensures { Answers result heap.now heap.now
        (spec.array_answer OfArray.Hasindex heap.now array args.now) }
{
    let i = index_alone(args)?;
    truth_answer(alloc, heap.array_at(array, i).is_some())
}

fn items(
    alloc: Global,
    heap: &Heap,
    array: u32,
    args: &[Option<Value>],
) -> Result<NativeAnswer, NativeRefused>
    requires { IsOfKind heap.now array Kind.Array }
    ensures { Answers result heap.now heap.now
        (spec.array_answer OfArray.Items heap.now array args.now) }
{
    no_argument(args)?;
    number_answer(alloc, heap.array_items(array))
}

fn size(
    alloc: Global,
    heap: &Heap,
    array: u32,
    args: &[Option<Value>],
) -> Result<NativeAnswer, NativeRefused>
    requires { IsOfKind heap.now array Kind.Array }
    ensures { Answers result heap.now heap.now
        (spec.array_answer OfArray.Size heap.now array args.now) }
{
    no_argument(args)?;
    number_answer(alloc, heap.array_size(array))
}

// The items of an Array, without the empty places.
fn items_of(alloc: Global, heap: &Heap, array: u32) -> Result<Vec<Value>, OutOfMemory>
    requires { IsOfKind heap.now array Kind.Array }
    ensures { IfOk result (λ items. items.items ≡ spec.items_of (places_at heap.now array)) }
{
    let size = heap.array_size(array);
    // No Array has more places, since each index that is put is at most that.
    if size > Heap::MOST_PLACES {
        return Err(OutOfMemory);
    }
    let mut items = Vec::new(alloc);
    for place in 0..size {
        push_shared(&mut items, heap.array_at(array, place + 1))?;
    }
    Ok(items)
}

fn makearray(
    alloc: Global,
    heap: &mut Heap,
    array: u32,
    args: &[Option<Value>],
) -> Result<NativeAnswer, NativeRefused>
    requires { IsOfKind heap.old array Kind.Array }
    ensures { Answers result heap.old heap.new
        (spec.array_answer OfArray.Makearray heap.old array args.now) }
{
    no_argument(args)?;
    let items = items_of(alloc, heap, array)?;
    make_array_of(heap, items.as_slice())
}

/// What a method comes to.
pub(crate) fn array_answer(
    alloc: Global,
    method: OfArray,
    heap: &mut Heap,
    array: u32,
    args: &[Option<Value>],
) -> Result<NativeAnswer, NativeRefused>
    requires { IsOfKind heap.old array Kind.Array }
    ensures { Answers result heap.old heap.new (spec.array_answer method heap.old array args.now) }
{
    match method {
        OfArray::At => at(heap, array, args),
        OfArray::Put => put(heap, array, args),
        OfArray::Append => append(alloc, heap, array, args),
        OfArray::Remove => remove(heap, array, args),
        OfArray::Hasindex => hasindex(alloc, heap, array, args),
        OfArray::Items => items(alloc, heap, array, args),
        OfArray::Size => size(alloc, heap, array, args),
        OfArray::Makearray => makearray(alloc, heap, array, args),
    }
}
