// What is told of objects and pools.
ghost use Rattle.std.specs.Prelude.{◌<◌, length};
ghost use Rattle.rx_heap.specs.Objects.{IsObject, IsOfKind};

use crate::told::{told_arguments, told_class, told_scope, told_value, told_word};
use rx_classes::ClassTable;
use rx_escape::escape;
use rx_heap::{Heap, Kind, MessageRow, Outcome};
use rx_pools::Pools;
use rx_sends::Parts;
use rx_tree::{OutOfMemory, Value};
use std::alloc::Global;

// The most items of an object that are told.
const MOST_TOLD: u32 = 20;

// Tells an item of an object behind the others, with a blank in front of it.
fn tell_item(alloc: Global, told: &mut String, item: Option<&Value>) -> Result<(), OutOfMemory> {
    told.push_str(" ")?;
    match item {
        Some(value) => told.push_str(told_value(alloc, value)?.as_str())?,
        None => told.push_str("-")?,
    }
    Ok(())
}

fn told_array(alloc: Global, heap: &Heap, o: u32) -> Result<String, OutOfMemory>
    requires { IsOfKind heap.now o Kind.Array }
{
    let size = heap.array_size(o);
    let mut told = format!(in alloc; "array of {size}")?;
    for i in 0..size.min(MOST_TOLD) {
        tell_item(alloc, &mut told, heap.array_at(o, i + 1))?;
    }
    Ok(told)
}

fn told_queue(alloc: Global, heap: &Heap, o: u32) -> Result<String, OutOfMemory>
    requires { IsOfKind heap.now o Kind.Queue }
{
    let items = heap.queue_items(o);
    let mut told = format!(in alloc; "queue of {items}")?;
    for i in 0..items.min(MOST_TOLD) {
        tell_item(alloc, &mut told, heap.queue_at(o, i + 1))?;
    }
    Ok(told)
}

fn told_directory(alloc: Global, heap: &Heap, o: u32) -> Result<String, OutOfMemory>
    requires { IsOfKind heap.now o Kind.Directory }
{
    let entries = heap.directory_items(o);
    let mut told = format!(in alloc; "directory of {entries}")?;
    let names = heap.directory_names(o)?;
    for name in names.as_slice() {
        let shown = escape(alloc, name.bytes())?;
        told.push_str(format!(in alloc; " [{shown}]")?.as_str())?;
        tell_item(alloc, &mut told, heap.directory_get(o, name.bytes()))?;
    }
    Ok(told)
}

fn told_outcome(alloc: Global, outcome: &Outcome) -> Result<String, OutOfMemory> {
    match outcome {
        Outcome::Waiting => told_word(alloc, "waiting"),
        Outcome::Given(value) => {
            let value = told_value(alloc, value)?;
            Ok(format!(in alloc; "given {value}")?)
        }
        Outcome::Failed(number) => Ok(format!(in alloc; "failed {number}")?),
    }
}

fn told_message(alloc: Global, row: &MessageRow) -> Result<String, OutOfMemory> {
    let target = told_value(alloc, &row.target)?;
    let name = escape(alloc, row.name.bytes())?;
    let args = told_arguments(alloc, row.args.as_slice())?;
    let used = if row.used { "used" } else { "unused" };
    let outcome = told_outcome(alloc, &row.outcome)?;
    let notified = row.notify.len();
    let mut told = format!(in alloc; "message {target} {name}{args}, {used}, {outcome}")?;
    if notified > 0 {
        told.push_str(format!(in alloc; ", notifies {notified}")?.as_str())?;
    }
    Ok(told)
}

// What an object that is no class holds.
fn told_contents(alloc: Global, heap: &Heap, o: u32) -> Result<Option<String>, OutOfMemory>
    requires { IsObject heap.now o }
{
    match heap.kind(o) {
        Kind::ClassObject => Ok(None),
        Kind::Plain => Ok(Some(told_word(alloc, "plain")?)),
        Kind::Array => Ok(Some(told_array(alloc, heap, o)?)),
        Kind::Queue => Ok(Some(told_queue(alloc, heap, o)?)),
        Kind::Directory => Ok(Some(told_directory(alloc, heap, o)?)),
        Kind::Message => Ok(Some(told_message(alloc, heap.message(o))?)),
    }
}

/// An object that is no class.
pub fn told_object(
    alloc: Global,
    heap: &Heap,
    classes: &ClassTable,
    o: u32,
) -> Result<Option<String>, OutOfMemory>
    requires { IsObject heap.now o }
{
    let Some(contents) = told_contents(alloc, heap, o)? else {
        return Ok(None);
    };
    let class = told_class(alloc, classes, heap.class_of(o))?;
    Ok(Some(format!(in alloc; "#{o} {class}: {contents}")?))
}

/// The object and the scope of a pool.
pub fn told_pool(
    alloc: Global,
    pools: &Pools,
    classes: &ClassTable,
    number: u32,
) -> Result<String, OutOfMemory>
    requires { number < length pools.now.pools }
{
    let (object, scope) = pools.owner(number);
    let scope = told_scope(alloc, classes, scope)?;
    Ok(format!(in alloc; "pool {number}: #{object} in {scope}")?)
}

/// How many objects, activities and pools there are.
pub fn told_count(alloc: Global, parts: &Parts) -> Result<String, OutOfMemory> {
    let objects = parts.heap.count();
    let activities = parts.stacks.count();
    let pools = parts.pools.count();
    Ok(format!(in alloc; "objects {objects}, activities {activities}, pools {pools}")?)
}
