// What a message comes to.
ghost use Rattle.std.specs.Prelude.{◌≡◌, ◌≤◌};
ghost use Rattle.rx_builtin.specs.declared.facts.Facts.{Facts};
ghost use Rattle.rx_native.specs.Fitting.{AreThere, Fits, IsThere};
ghost use Rattle.rx_sends.specs.Delivering as spec;
ghost use Rattle.rx_sends.specs.Replies.{Delivers};
ghost use Rattle.rx_sends.specs.Settings.{setting};

use crate::call::{PackageMethod, call_of};
use crate::making::object_in;
use crate::native::native;
use crate::parts::Sent;
use crate::reaching::{Reached, reach};
use crate::refused::{CONTROL_STACK_FULL, INCORRECT_METHOD_CALL, SendRefused};
use crate::reply::Reply;
use crate::sender::Sender;
use crate::unknown::unknown;
use rx_classes::{ClassTable, MethodId};
use rx_heap::Heap;
use rx_native::target_scope;
use rx_tree::{Scope, Value};
use sqlite_items::Items;
use std::alloc::Global;

// A method of the package is begun.
fn begin(
    heap: &Heap,
    classes: &ClassTable,
    sender: Sender,
    target: &Value,
    method: PackageMethod,
    args: Items<Option<Value>>,
) -> Result<Reply, SendRefused>
    requires fits { Fits classes.now heap.now }
    requires there { IsThere heap.now target.now }
    ensures { Delivers result heap.now (spec.begins classes.now sender heap.now target.now method args) }
{
    if sender.is_deep {
        return Err(SendRefused::Raised(CONTROL_STACK_FULL));
    }
    let class = target_scope(heap, target).class;
    let call = call_of(classes, class, object_in(target), method, args, false)?;
    Ok(Reply::Calls(call))
}

/// A method that a receiver reaches is done, or begun.
pub(crate) fn perform(
    alloc: Global,
    heap: &mut Heap,
    classes: &ClassTable,
    sender: Sender,
    target: &Value,
    method: (Scope, MethodId),
    args: Items<Option<Value>>,
) -> Result<Reply, SendRefused>
    requires at_least_1 { 1 ≤ sender.digits }
    requires at_most_18 { sender.digits ≤ 18 }
    requires reached { spec.IsReachedBy classes.now heap.old target.now method.1 }
    requires target_there { IsThere heap.old target.now }
    requires args_there { AreThere heap.old args }
    requires fits { Fits classes.now heap.old }
    ensures { (facts : Facts) → facts.digits ≡ sender.digits → Delivers result heap.new
        (spec.performs (setting facts classes.now sender) heap.old target.now args method.0 method.1) }
{
    let (scope, method) = method;
    match method {
        MethodId::Native(id) => native(alloc, heap, classes, sender, target, id, args),
        MethodId::Body { body, guarded, .. } => {
            let method = PackageMethod {
                scope,
                body,
                guarded,
            };
            begin(heap, classes, sender, target, method, args)
        }
    }
}

/// What a message comes to.
pub(crate) fn deliver(
    alloc: Global,
    heap: &mut Heap,
    classes: &ClassTable,
    sender: Sender,
    sent: Sent,
) -> Result<Reply, SendRefused>
    requires at_least_1 { 1 ≤ sender.digits }
    requires at_most_18 { sender.digits ≤ 18 }
    requires target_there { IsThere heap.old sent.target }
    requires args_there { AreThere heap.old sent.args }
    requires fits { Fits classes.now heap.old }
    ensures { (facts : Facts) → facts.digits ≡ sender.digits → Delivers result heap.new
        (spec.delivery (setting facts classes.now sender) heap.old sent) }
{
    match reach(heap, classes, sender.object, &sent)? {
        Reached::Method(scope, method) => {
            let (target, args) = sent.into_target_and_args();
            perform(alloc, heap, classes, sender, &target, (scope, method), args)
        }
        Reached::Unknown(scope, method) => {
            unknown(alloc, heap, classes, sender, sent, (scope, method))
        }
        Reached::NotInOrder => Err(SendRefused::Raised(INCORRECT_METHOD_CALL)),
        Reached::NoMethod => Err(SendRefused::NoMethod),
    }
}
