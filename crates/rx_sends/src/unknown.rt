// UNKNOWN, which a message goes to that has no method of its own name.
ghost use Rattle.std.specs.Prelude.{◌≡◌, ◌≤◌, ◌==◌, ◌&&◌, nat_lt, [], ◌∷◌, ℕ, length, true, false, IfOk, OnOk, Err, Some};
ghost use Rattle.rx_builtin.specs.declared.facts.Facts.{Facts};
ghost use Rattle.rx_classes.specs.Natives.{array_class};
ghost use Rattle.rx_heap.specs.Arrays.{most_places};
ghost use Rattle.rx_heap.specs.Objects.{IsObject, most_objects};
ghost use Rattle.rx_native.specs.Fitting.{AreThere, Fits, IsThere};
ghost use Rattle.rx_native.specs.Outcomes.{next_number, resources_exhausted, with_object};
ghost use Rattle.rx_tree.specs.Object.{Places};
ghost use Rattle.rx_sends.specs.Delivering as spec;
ghost use Rattle.rx_sends.specs.Making.{is_body};
ghost use Rattle.rx_sends.specs.Replies.{Delivers};
ghost use Rattle.rx_sends.specs.Settings.{setting};

use crate::delivering::perform;
use crate::making::is_body;
use crate::parts::Sent;
use crate::refused::{CONTROL_STACK_FULL, INCORRECT_METHOD_CALL, SendRefused};
use crate::reply::Reply;
use crate::sender::Sender;
use rx_classes::{ClassTable, MethodId};
use rx_heap::{Heap, Kind};
use rx_tree::{OutOfMemory, Scope, Text, Value};
use sqlite_items::Items;
use std::alloc::Global;

/// The class Array.
const ARRAY: u32 = 5;

// Makes an Array without items, and tells its number.
fn make_empty(heap: &mut Heap) -> Result<u32, SendRefused>
    ensures number { IfOk result (λ array. array ≡ next_number heap.old) }
    ensures room { OnOk result ((length heap.old == most_objects) ≡ false) }
    ensures ok { OnOk result (heap.new ≡ with_object heap.old array_class (Places [])) }
    ensures raised { (number : ℕ) → result ≡ Err (SendRefused.Raised number)
        → ((length heap.old == most_objects) ≡ true) × (number ≡ resources_exhausted) × (heap.new ≡ heap.old) }
    ensures no_method { result ≡ Err SendRefused.NoMethod → ⊥ }
{
    Ok(heap.make(ARRAY, Kind::Array)?)
}

// Makes an Array of these arguments, and tells its number.
fn make_array(heap: &mut Heap, args: &[Option<Value>]) -> Result<u32, SendRefused>
    requires { length args.now ≤ most_places }
    ensures number { IfOk result (λ array. array ≡ next_number heap.old) }
    ensures room { OnOk result ((length heap.old == most_objects) ≡ false) }
    ensures ok { OnOk result (heap.new ≡ with_object heap.old array_class (Places args.now)) }
    ensures raised { (number : ℕ) → result ≡ Err (SendRefused.Raised number)
        → ((length heap.old == most_objects) ≡ true) × (number ≡ resources_exhausted) × (heap.new ≡ heap.old) }
    ensures no_method { result ≡ Err SendRefused.NoMethod → ⊥ }
{
    let array = make_empty(heap)?;
    heap.array_resize(array, args.len() as u32)?;
    let mut i = 0;
    for argument in args {
        i += 1;
        match argument {
            Some(value) => heap.array_put(array, i, value.share()?)?,
            None => {}
        }
    }
    Ok(array)
}

// The arguments of UNKNOWN.
fn unknown_args(alloc: Global, name: Text, array: u32) -> Result<Items<Option<Value>>, OutOfMemory>
    ensures { IfOk result (λ args. args ≡ spec.unknown_args name array) }
{
    let mut args = Items::new(alloc);
    args.push(Some(Value::Str(name)))?;
    args.push(Some(Value::Ref(array)))?;
    Ok(args)
}

// Whether there is no room for the frame of a method.
fn lacks_room(sender: Sender, method: MethodId) -> bool
    ensures { result ≡ (sender.is_deep && is_body method) }
{
    sender.is_deep && is_body(method)
}

// Whether a message has more arguments than an Array has places.
fn has_too_many(args: &[Option<Value>]) -> bool
    ensures { result ≡ nat_lt most_places (length args.now) }
{
    args.len() > Heap::MOST_PLACES as usize
}

// UNKNOWN is sent a message's name and the Array of its arguments.
fn pass_on(
    alloc: Global,
    heap: &mut Heap,
    classes: &ClassTable,
    sender: Sender,
    sent: Sent,
    array: u32,
    method: (Scope, MethodId),
) -> Result<Reply, SendRefused>
    requires at_least_1 { 1 ≤ sender.digits }
    requires at_most_18 { sender.digits ≤ 18 }
    requires reached { spec.IsReachedBy classes.now heap.old sent.target method.1 }
    requires target_there { IsThere heap.old sent.target }
    requires array_there { IsObject heap.old array }
    requires fits { Fits classes.now heap.old }
    ensures { (facts : Facts) → facts.digits ≡ sender.digits → Delivers result heap.new
        (spec.performs (setting facts classes.now sender) heap.old sent.target (spec.unknown_args sent.name array)
        method.0 method.1) }
{
    let (target, name) = sent.into_target_and_name();
    let args = unknown_args(alloc, name, array)?;
    perform(alloc, heap, classes, sender, &target, method, args)
}

/// UNKNOWN, which a receiver reaches, is sent a message's name and an Array of its arguments.
pub(crate) fn unknown(
    alloc: Global,
    heap: &mut Heap,
    classes: &ClassTable,
    sender: Sender,
    sent: Sent,
    method: (Scope, MethodId),
) -> Result<Reply, SendRefused>
    requires at_least_1 { 1 ≤ sender.digits }
    requires at_most_18 { sender.digits ≤ 18 }
    requires reached { spec.IsReachedBy classes.now heap.old sent.target method.1 }
    requires target_there { IsThere heap.old sent.target }
    requires fits { Fits classes.now heap.old }
    ensures { (facts : Facts) → facts.digits ≡ sender.digits → Delivers result heap.new
        (spec.unknowns (setting facts classes.now sender) heap.old sent method.0 method.1) }
{
    if has_too_many(sent.args.as_slice()) {
        return Err(SendRefused::Raised(INCORRECT_METHOD_CALL));
    }
    if lacks_room(sender, method.1) {
        return Err(SendRefused::Raised(CONTROL_STACK_FULL));
    }
    match make_array(heap, sent.args.as_slice()) {
        Ok(array) => pass_on(alloc, heap, classes, sender, sent, array, method),
        Err(refused) => Err(refused),
    }
}
