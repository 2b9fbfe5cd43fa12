// NEW, and the INIT that it sends.
ghost use Rattle.std.specs.Prelude.{◌≡◌, ◌==◌, ◌&&◌, ◌≤◌, List, IsTrue};
ghost use Rattle.rx_builtin.specs.declared.facts.Facts.{Facts};
ghost use Rattle.rx_classes.specs.Classes.{IsClass};
ghost use Rattle.rx_native.specs.Fitting.{AreThere, Fits, IsReached, IsThere};
ghost use Rattle.rx_native.specs.Methods.{is_built, object_in};
ghost use Rattle.rx_tree.specs.Object.{Object};
ghost use Rattle.rx_sends.specs.Making as spec;
ghost use Rattle.rx_sends.specs.Numbers as numbers;
ghost use Rattle.rx_sends.specs.Replies.{Delivers};
ghost use Rattle.rx_sends.specs.Settings.{setting};

use crate::call::{PackageMethod, call_of};
use crate::calling::call_native;
use crate::refused::{CONTROL_STACK_FULL, INCORRECT_METHOD_CALL, SendRefused};
use crate::reply::Reply;
use crate::sender::Sender;
use rx_classes::{ClassTable, MethodId};
use rx_heap::Heap;
use rx_native::{Began, NativeAnswer};
use rx_tree::{Scope, Value};
use sqlite_items::Items;
use std::alloc::Global;

// NEW of Class, and that of the class Array itself.
const NEW: u16 = 10;

const NEW_ARRAY: u16 = 53;

fn is_new_array(id: u16) -> bool
    ensures { result ≡ (id == numbers.new_array) }
{
    id == NEW_ARRAY
}

/// Whether a native method is NEW, but for that of Message.
pub(crate) fn is_new(id: u16) -> bool
    ensures { result ≡ numbers.is_new id }
{
    id == NEW || is_new_array(id)
}

/// The number of the object that a receiver is.
pub(crate) fn object_in(target: &Value) -> u32
    ensures { result ≡ object_in target.now }
{
    match target {
        Value::Str(_) => 0,
        Value::Ref(object) => *object,
    }
}

/// Whether a method is one of the package.
pub(crate) fn is_body(method: MethodId) -> bool
    ensures { result ≡ spec.is_body method }
{
    match method {
        MethodId::Native(_) => false,
        MethodId::Body { .. } => true,
    }
}

// Whether a method that was found is one of the package.
fn is_of_package(found: Option<(Scope, MethodId)>) -> bool
    ensures { result ≡ spec.is_of_package found }
{
    match found {
        None => false,
        Some((_, method)) => is_body(method),
    }
}

// INIT of Object.
fn initialize_alone(object: u32, args: &[Option<Value>]) -> Result<Reply, SendRefused>
    ensures { (objects : List Object) → Delivers result objects
        (spec.initializes_alone object args.now objects) }
{
    if args.is_empty() {
        Ok(Reply::Gives(Some(Value::Ref(object))))
    } else {
        Err(SendRefused::Raised(INCORRECT_METHOD_CALL))
    }
}

// Sends INIT, which was found, to a new object of a class.
fn initialize(
    classes: &ClassTable,
    class: u32,
    init: Option<(Scope, MethodId)>,
    object: u32,
    args: Items<Option<Value>>,
) -> Result<Reply, SendRefused>
    requires { IsClass classes.now class }
    ensures { (objects : List Object) → Delivers result objects
        (spec.initializes classes.now class init object args objects) }
{
    let Some((scope, method)) = init else {
        return initialize_alone(object, args.as_slice());
    };
    match method {
        MethodId::Native(_) => initialize_alone(object, args.as_slice()),
        MethodId::Body { body, guarded, .. } => {
            let method = PackageMethod {
                scope,
                body,
                guarded,
            };
            Ok(Reply::Calls(call_of(classes, class, object, method, args, true)?))
        }
    }
}

// The arguments of INIT.
fn init_args(alloc: Global, id: u16, args: Items<Option<Value>>) -> Items<Option<Value>>
    ensures { result ≡ spec.init_args id args }
{
    if is_new_array(id) {
        Items::new(alloc)
    } else {
        args
    }
}

// What NEW gives: it has made an object, which INIT is sent to.
fn settle(
    alloc: Global,
    classes: &ClassTable,
    class: u32,
    init: Option<(Scope, MethodId)>,
    id: u16,
    args: Items<Option<Value>>,
    answer: NativeAnswer,
) -> Result<Reply, SendRefused>
    requires { IsClass classes.now class }
    ensures { (after : List Object) → Delivers result after
        (spec.new_by (spec.sends_init classes.now class init id args) answer after) }
{
    match answer {
        NativeAnswer::Begin(Began::New(object)) => {
            initialize(classes, class, init, object, init_args(alloc, id, args))
        }
        NativeAnswer::Begin(Began::Start(message)) => Ok(Reply::Starts(message)),
        NativeAnswer::Value(value) => Ok(Reply::Gives(Some(value))),
        NativeAnswer::Nothing => Ok(Reply::Gives(None)),
    }
}

// Whether there is no room for the frame of INIT.
fn lacks_room(sender: Sender, init: Option<(Scope, MethodId)>) -> bool
    ensures { result ≡ (sender.is_deep && spec.is_of_package init) }
{
    sender.is_deep && is_of_package(init)
}

/// NEW of a class.
pub(crate) fn new(
    alloc: Global,
    heap: &mut Heap,
    classes: &ClassTable,
    sender: Sender,
    target: &Value,
    id: u16,
    args: Items<Option<Value>>,
) -> Result<Reply, SendRefused>
    requires at_least_1 { 1 ≤ sender.digits }
    requires at_most_18 { sender.digits ≤ 18 }
    requires built { IsTrue (is_built id) }
    requires new { IsTrue (numbers.is_new id) }
    requires reached { IsReached classes.now heap.old target.now id }
    requires target_there { IsThere heap.old target.now }
    requires args_there { AreThere heap.old args }
    requires fits { Fits classes.now heap.old }
    ensures { (facts : Facts) → facts.digits ≡ sender.digits → Delivers result heap.new
        (spec.news (setting facts classes.now sender) heap.old target.now id args) }
{
    let class = object_in(target);
    let init = classes.find(class, false, b"INIT")?;
    if lacks_room(sender, init) {
        return Err(SendRefused::Raised(CONTROL_STACK_FULL));
    }
    match call_native(alloc, heap, classes, sender, target, id, args.as_slice()) {
        Ok(answer) => settle(alloc, classes, class, init, id, args, answer),
        Err(refused) => Err(refused),
    }
}
