// The class of a receiver, and where its methods are sought.
ghost use Rattle.std.specs.Prelude.{◌≡◌, IfOk};
ghost use Rattle.rx_classes.specs.Classes.{IsClass};
ghost use Rattle.rx_heap.specs.Objects.{IsObject};
ghost use Rattle.rx_native.specs.Fitting.{Fits, IsThere};
ghost use Rattle.rx_native.specs.Targets as spec;

use rx_classes::{ClassTable, Scope};
use rx_heap::{Heap, Kind};
use rx_tree::{OutOfMemory, Value};

/// The class String.
pub(crate) const STRING: u32 = 4;

/// Whether an object is a class.
pub(crate) fn is_class(heap: &Heap, object: u32) -> bool
    requires { IsObject heap.now object }
    ensures { result ≡ spec.is_class heap.now object }
{
    heap.kind(object) == Kind::ClassObject
}

/// Whether a value is a Message.
pub(crate) fn is_message(heap: &Heap, target: &Value) -> bool
    requires { IsThere heap.now target.now }
    ensures { result ≡ spec.is_message heap.now target.now }
{
    match target {
        Value::Str(_) => false,
        Value::Ref(object) => heap.kind(*object) == Kind::Message,
    }
}

/// The class of a value.
pub(crate) fn class_of_value(heap: &Heap, target: &Value) -> u32
    requires there { IsThere heap.now target.now }
    ensures class { result ≡ spec.class_of_value heap.now target.now }
{
    match target {
        Value::Str(_) => STRING,
        Value::Ref(object) => heap.class_of(*object),
    }
}

/// The scopes that are searched for a method of a value: those of its class, or for a class object those of that class itself.
pub fn target_scope(heap: &Heap, target: &Value) -> Scope
    requires there { IsThere heap.now target.now }
    ensures scope { result ≡ spec.target_scope heap.now target.now }
{
    match target {
        Value::Ref(object) if is_class(heap, *object) => Scope {
            class: *object,
            class_side: true,
        },
        _ => Scope {
            class: class_of_value(heap, target),
            class_side: false,
        },
    }
}

/// Whether a value has a method of this name, in upper case.
pub(crate) fn has_method(
    heap: &Heap,
    classes: &ClassTable,
    target: &Value,
    name: &[u8],
) -> Result<bool, OutOfMemory>
    requires fits { Fits classes.now heap.now }
    requires there { IsThere heap.now target.now }
    ensures { IfOk result (λ has. has ≡ spec.has_method classes.now heap.now target.now name.now) }
{
    let scope = target_scope(heap, target);
    Ok(classes.find(scope.class, scope.class_side, name)?.is_some())
}
