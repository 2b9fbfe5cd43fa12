// A call of a native method.
ghost use Rattle.std.specs.Prelude.{◌≡◌, ◌≤◌, IfSome, IsTrue};
ghost use Rattle.rx_builtin.specs.declared.facts.Facts.{Facts};
ghost use Rattle.rx_native.specs.Answers.{Answers};
ghost use Rattle.rx_native.specs.Fitting.{AreThere, Fits, IsReached, IsThere};
ghost use Rattle.rx_native.specs.Methods.{answer_of, is_built, method_numbered, object_in};

use crate::answer::{NativeAnswer, NativeRefused};
use crate::array::{array_answer, array_class_answer};
use crate::class::class_answer;
use crate::directory::directory_answer;
use crate::method::{Method, built_method, method_numbered};
use crate::object::object_answer;
use crate::queue::queue_answer;
use crate::string::string_answer;
use rx_classes::ClassTable;
use rx_heap::Heap;
use rx_tree::Value;
use std::alloc::Global;

/// Whether a native method is one of those that [`call`] has: all but those of Message.
pub fn is_built(id: u16) -> bool
    ensures { result ≡ is_built id }
{
    method_numbered(id).is_some()
}

// The number of the object that a receiver is.
fn object_in(target: &Value) -> u32
    ensures { result ≡ object_in target.now }
{
    match target {
        Value::Str(_) => 0,
        Value::Ref(object) => *object,
    }
}

/// What a native method comes to, by its number, for a receiver that has it, with arguments of which some are left out, and
/// DIGITS.
///
/// # Errors
///
/// 93 where an argument is wrong, else 88 where one that has to be a class or an Array is none, else 5 where there are
/// 1,048,576 objects already or a string would have more than 16,777,216 bytes. ABS and SIGN raise 41 and 42 as the functions do.
/// Nothing has changed then. Where memory is wanting nothing is told of an object that was being made.
pub fn call(
    alloc: Global,
    id: u16,
    heap: &mut Heap,
    classes: &ClassTable,
    target: &Value,
    args: &[Option<Value>],
    digits: u8,
) -> Result<NativeAnswer, NativeRefused>
    requires at_least_1 { 1 ≤ digits }
    requires at_most_18 { digits ≤ 18 }
    requires built { IsTrue (is_built id) }
    requires reached { IsReached classes.now heap.old target.now id }
    requires target_there { IsThere heap.old target.now }
    requires args_there { AreThere heap.old args.now }
    requires fits { Fits classes.now heap.old }
    ensures answer { (facts : Facts) → facts.digits ≡ digits → IfSome (method_numbered id) (λ method.
        Answers result heap.old heap.new (answer_of method facts classes.now heap.old target.now args.now)) }
{
    let object = object_in(target);
    match built_method(id) {
        Method::Object(method) => object_answer(alloc, method, heap, classes, target, args),
        Method::Class(method) => class_answer(method, heap, classes, object, args),
        Method::String(method) => string_answer(alloc, method, target, args, digits),
        Method::ArrayClass(method) => array_class_answer(method, heap, object, args),
        Method::Array(method) => array_answer(alloc, method, heap, object, args),
        Method::Queue(method) => queue_answer(alloc, method, heap, object, args),
        Method::Directory(method) => directory_answer(alloc, method, heap, object, args),
    }
}
