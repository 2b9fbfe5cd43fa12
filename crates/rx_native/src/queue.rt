// The methods of Queue, by the number of the Queue.
ghost use Rattle.std.specs.Prelude.{◌≡◌, IfOk};
ghost use Rattle.rx_heap.specs.Objects.{IsOfKind, items_at};
ghost use Rattle.rx_native.specs.Answers.{Answers};
ghost use Rattle.rx_native.specs.QueueMethods as spec;

use crate::answer::{NativeAnswer, NativeRefused, item_answer, number_answer, taken_answer};
use crate::argument::{index_alone, no_argument, value_alone};
use crate::making::{make_array_of, push_shared};
use rx_heap::{Heap, Kind};
use rx_tree::{OutOfMemory, Value};
use std::alloc::Global;

/// A method of Queue.
#[derive(Clone, Copy)]
pub enum OfQueue {
    Queue,
    Push,
    Pull,
    Peek,
    Items,
    At,
    Makearray,
}

fn queue(heap: &mut Heap, o: u32, args: &[Option<Value>]) -> Result<NativeAnswer, NativeRefused>
    requires { IsOfKind heap.old o Kind.Queue }
    ensures { Answers result heap.old heap.new
        (spec.queue_answer OfQueue.Queue heap.old o args.now) }
{
    let value = value_alone(args)?;
    heap.queue_add(o, value.share()?)?;
    Ok(NativeAnswer::Nothing)
}

fn push(heap: &mut Heap, o: u32, args: &[Option<Value>]) -> Result<NativeAnswer, NativeRefused>
    requires { IsOfKind heap.old o Kind.Queue }
    ensures { Answers result heap.old heap.new
        (spec.queue_answer OfQueue.Push heap.old o args.now) }
{
    let value = value_alone(args)?;
    heap.queue_push(o, value.share()?)?;
    Ok(NativeAnswer::Nothing)
}

fn pull(heap: &mut Heap, o: u32, args: &[Option<Value>]) -> Result<NativeAnswer, NativeRefused>
    requires { IsOfKind heap.old o Kind.Queue }
    ensures { Answers result heap.old heap.new
        (spec.queue_answer OfQueue.Pull heap.old o args.now) }
{
    no_argument(args)?;
    Ok(taken_answer(heap.queue_pull(o)))
}

fn peek(heap: &Heap, o: u32, args: &[Option<Value>]) -> Result<NativeAnswer, NativeRefused>
    requires { IsOfKind heap.now o Kind.Queue }
    ensures { Answers result heap.now heap.now
        (spec.queue_answer OfQueue.Peek heap.now o args.now) }
{
    no_argument(args)?;
    item_answer(heap.queue_at(o, 1))
}

fn items(
    alloc: Global,
    heap: &Heap,
    o: u32,
    args: &[Option<Value>],
) -> Result<NativeAnswer, NativeRefused>
    requires { IsOfKind heap.now o Kind.Queue }
    ensures { Answers result heap.now heap.now
        (spec.queue_answer OfQueue.Items heap.now o args.now) }
{
    no_argument(args)?;
    number_answer(alloc, heap.queue_items(o))
}

fn at(heap: &Heap, o: u32, args: &[Option<Value>]) -> Result<NativeAnswer, NativeRefused>
    requires { IsOfKind heap.now o Kind.Queue }
    ensures { Answers result heap.now heap.now (spec.queue_answer OfQueue.At heap.now o args.now) }
{
    let i = index_alone(args)?;
    item_answer(heap.queue_at(o, i))
}

// The items of a Queue, the front first.
fn items_of(alloc: Global, heap: &Heap, o: u32) -> Result<Vec<Value>, OutOfMemory>
    requires { IsOfKind heap.now o Kind.Queue }
    ensures { IfOk result (λ items. items.items ≡ items_at heap.now o) }
{
    let mut items = Vec::new(alloc);
    for place in 0..heap.queue_items(o) {
        push_shared(&mut items, heap.queue_at(o, place + 1))?;
    }
    Ok(items)
}

fn makearray(
    alloc: Global,
    heap: &mut Heap,
    o: u32,
    args: &[Option<Value>],
) -> Result<NativeAnswer, NativeRefused>
    requires { IsOfKind heap.old o Kind.Queue }
    ensures { Answers result heap.old heap.new
        (spec.queue_answer OfQueue.Makearray heap.old o args.now) }
{
    no_argument(args)?;
    let items = items_of(alloc, heap, o)?;
    make_array_of(heap, items.as_slice())
}

/// What a method comes to.
pub(crate) fn queue_answer(
    alloc: Global,
    method: OfQueue,
    heap: &mut Heap,
    o: u32,
    args: &[Option<Value>],
) -> Result<NativeAnswer, NativeRefused>
    requires { IsOfKind heap.old o Kind.Queue }
    ensures { Answers result heap.old heap.new (spec.queue_answer method heap.old o args.now) }
{
    match method {
        OfQueue::Queue => queue(heap, o, args),
        OfQueue::Push => push(heap, o, args),
        OfQueue::Pull => pull(heap, o, args),
        OfQueue::Peek => peek(heap, o, args),
        OfQueue::Items => items(alloc, heap, o, args),
        OfQueue::At => at(heap, o, args),
        OfQueue::Makearray => makearray(alloc, heap, o, args),
    }
}
