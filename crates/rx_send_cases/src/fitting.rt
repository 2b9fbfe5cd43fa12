// Whether objects and classes fit, and whether a receiver and arguments are there.
ghost use Rattle.std.specs.Prelude.{◌≡◌, IfOk, Contains};
ghost use Rattle.std.specs.Bool.{OnTrue};
ghost use Rattle.rx_classes.specs.Classes.{IsClass};
ghost use Rattle.rx_classes.specs.Orders.{order};
ghost use Rattle.rx_heap.specs.Objects.{IsObject};
ghost use Rattle.rx_native.specs.Fitting.{AreThere, Fits, FitsObject, IsThere, IsThereIfGiven};

use rx_classes::ClassTable;
use rx_heap::{Heap, Kind};
use rx_tree::{OutOfMemory, Value};

// The native classes that ask for a kind, with that kind.
const CLASS: u32 = 3;

const ARRAY: u32 = 5;

const QUEUE: u32 = 6;

const DIRECTORY: u32 = 7;

/// Whether there is a class of this number.
pub fn is_class(classes: &ClassTable, class: u32) -> bool
    ensures { OnTrue result (IsClass classes.now class) }
{
    class >= 2 && (class as usize) < classes.count() + 9
}

/// Whether there is an object of this number.
pub fn is_object(heap: &Heap, o: u32) -> bool
    ensures { OnTrue result (IsObject heap.now o) }
{
    o >= 1 && o <= heap.count()
}

/// Whether a value is a string, or an object that is there.
pub fn is_there(heap: &Heap, value: &Value) -> bool
    ensures { OnTrue result (IsThere heap.now value.now) }
{
    match value {
        Value::Str(_) => true,
        Value::Ref(object) => is_object(heap, *object),
    }
}

// Whether an argument is there, if it is given.
fn is_there_if_given(heap: &Heap, argument: &Option<Value>) -> bool
    ensures { OnTrue result (IsThereIfGiven heap.now argument.now) }
{
    match argument {
        Some(value) => is_there(heap, value),
        None => true,
    }
}

/// Whether all arguments that are given are there.
pub fn are_there(heap: &Heap, args: &[Option<Value>]) -> bool
    ensures { OnTrue result (AreThere heap.now args.now) }
{
    for argument in args {
        if !is_there_if_given(heap, argument) {
            return false;
        }
    }
    true
}

// Whether an object is of a kind where a class is in its order.
fn is_kind_of(order: &[u32], class: u32, kind: Kind, asked: Kind) -> bool
    ensures { OnTrue result (Contains order.now class → kind ≡ asked) }
{
    kind == asked || !order.contains(&class)
}

// Whether an object that is a class is one of the classes.
fn is_fit_class(classes: &ClassTable, o: u32, kind: Kind) -> bool
    ensures { OnTrue result (kind ≡ Kind.ClassObject → IsClass classes.now o) }
{
    match kind {
        Kind::ClassObject => is_class(classes, o),
        _ => true,
    }
}

// Whether an object is of the kinds that its order asks for.
fn kinds_fit(order: &[u32], kind: Kind) -> bool
    ensures class { OnTrue result (Contains order.now 3 → kind ≡ Kind.ClassObject) }
    ensures array { OnTrue result (Contains order.now 5 → kind ≡ Kind.Array) }
    ensures queue { OnTrue result (Contains order.now 6 → kind ≡ Kind.Queue) }
    ensures directory { OnTrue result (Contains order.now 7 → kind ≡ Kind.Directory) }
{
    if !is_kind_of(order, CLASS, kind, Kind::ClassObject) {
        return false;
    }
    if !is_kind_of(order, ARRAY, kind, Kind::Array) {
        return false;
    }
    if !is_kind_of(order, QUEUE, kind, Kind::Queue) {
        return false;
    }
    is_kind_of(order, DIRECTORY, kind, Kind::Directory)
}

// Whether an object fits the classes.
fn fits_object(heap: &Heap, classes: &ClassTable, o: u32) -> Result<bool, OutOfMemory>
    requires { IsObject heap.now o }
    ensures { IfOk result (λ fits. OnTrue fits (FitsObject classes.now heap.now o)) }
{
    let class = heap.class_of(o);
    if !is_class(classes, class) {
        return Ok(false);
    }
    let kind = heap.kind(o);
    if !is_fit_class(classes, o, kind) {
        return Ok(false);
    }
    let order = classes.order(class)?;
    Ok(kinds_fit(order.as_slice(), kind))
}

/// Whether the objects fit the classes.
pub fn fits(heap: &Heap, classes: &ClassTable) -> Result<bool, OutOfMemory>
    ensures { IfOk result (λ fits. OnTrue fits (Fits classes.now heap.now)) }
{
    for place in 0..heap.count() {
        if !fits_object(heap, classes, place + 1)? {
            return Ok(false);
        }
    }
    Ok(true)
}
