// The method that a message reaches.
ghost use Rattle.std.specs.Prelude.{◌≡◌, IfOk};
ghost use Rattle.rx_native.specs.Fitting.{Fits, IsThere};
ghost use Rattle.rx_sends.specs.Reaching as spec;

use crate::parts::Sent;
use rx_classes::{ClassTable, MethodId, Sought};
use rx_heap::Heap;
use rx_native::target_scope;
use rx_tree::{OutOfMemory, Scope, Value};

/// What a message reaches.
#[derive(Clone, Copy)]
pub enum Reached {
    /// A method of its name, with the scope in which it stands.
    Method(Scope, MethodId),
    /// UNKNOWN in its place.
    Unknown(Scope, MethodId),
    /// The search is to begin at a class that it doesn't go through.
    NotInOrder,
    /// There is neither.
    NoMethod,
}

// Whether the sender has the receiver as its object.
fn is_own(sender: Option<u32>, target: &Value) -> bool
    ensures { result ≡ spec.is_own sender target.now }
{
    match (sender, target) {
        (Some(object), Value::Ref(number)) => object == *number,
        _ => false,
    }
}

// Whether a method is there for a sender.
fn is_permitted(sender: Option<u32>, target: &Value, method: MethodId) -> bool
    ensures { result ≡ spec.is_permitted sender target.now method }
{
    match method {
        MethodId::Native(_) => true,
        MethodId::Body { private, .. } => !private || is_own(sender, target),
    }
}

// The first method of a name for a receiver, from a class on where one is given.
fn seek(
    heap: &Heap,
    classes: &ClassTable,
    target: &Value,
    above: Option<u32>,
    name: &[u8],
) -> Result<Sought, OutOfMemory>
    requires fits { Fits classes.now heap.now }
    requires there { IsThere heap.now target.now }
    ensures { IfOk result (λ sought. sought ≡ spec.sought_for classes.now heap.now target.now above name.now) }
{
    let scope = target_scope(heap, target);
    match above {
        Some(class) => classes.find_from(scope.class, scope.class_side, class, name),
        None => match classes.find(scope.class, scope.class_side, name)? {
            Some((scope, method)) => Ok(Sought::Found(scope, method)),
            None => Ok(Sought::NoMethod),
        },
    }
}

// UNKNOWN, where it is found and permitted.
fn unknown(sender: Option<u32>, target: &Value, sought: Sought) -> Reached
    ensures { result ≡ spec.or_unknown sender target.now sought }
{
    match sought {
        Sought::Found(scope, method) if is_permitted(sender, target, method) => {
            Reached::Unknown(scope, method)
        }
        _ => Reached::NoMethod,
    }
}

/// The method that a message reaches, or want of memory. The sender is told by its object.
pub(crate) fn reach(
    heap: &Heap,
    classes: &ClassTable,
    sender: Option<u32>,
    sent: &Sent,
) -> Result<Reached, OutOfMemory>
    requires fits { Fits classes.now heap.now }
    requires there { IsThere heap.now sent.now.target }
    ensures { IfOk result (λ reached. reached ≡ spec.reached classes.now heap.now sender sent.now) }
{
    match seek(heap, classes, &sent.target, sent.above, sent.name.bytes())? {
        Sought::NotInOrder => return Ok(Reached::NotInOrder),
        Sought::Found(scope, method) if is_permitted(sender, &sent.target, method) => {
            return Ok(Reached::Method(scope, method));
        }
        _ => {}
    }
    let sought = seek(heap, classes, &sent.target, sent.above, b"UNKNOWN")?;
    Ok(unknown(sender, &sent.target, sought))
}
