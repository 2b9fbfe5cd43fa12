// Calls of native methods.
ghost use Rattle.std.specs.Prelude.{◌≡◌, ◌≤◌, List, IsTrue};
ghost use Rattle.rx_builtin.specs.declared.facts.Facts.{Facts};
ghost use Rattle.rx_native.specs.Answers.{Answers};
ghost use Rattle.rx_native.specs.Outcomes.{Outcome};
ghost use Rattle.rx_tree.specs.Object.{Object};
ghost use Rattle.rx_native.specs.Fitting.{AreThere, Fits, IsReached, IsThere};
ghost use Rattle.rx_native.specs.Methods.{is_built};
ghost use Rattle.rx_sends.specs.Outcomes.{outcome};
ghost use Rattle.rx_sends.specs.Replies.{Comes};
ghost use Rattle.rx_sends.specs.Settings.{setting};

use crate::refused::SendRefused;
use crate::sender::Sender;
use rx_classes::ClassTable;
use rx_heap::Heap;
use rx_native::{NativeAnswer, NativeRefused, call};
use rx_tree::Value;
use std::alloc::Global;

// A native method's answer, where its refusal is one of the message.
fn told(answer: Result<NativeAnswer, NativeRefused>) -> Result<NativeAnswer, SendRefused>
    ensures { (before : List Object) (after : List Object) (outcome : Outcome)
        → Answers answer before after outcome → Comes result before after outcome }
{
    match answer {
        Ok(answer) => Ok(answer),
        Err(error) => Err(SendRefused::from(error)),
    }
}

/// What a native method comes to that the receiver reaches.
pub(crate) fn call_native(
    alloc: Global,
    heap: &mut Heap,
    classes: &ClassTable,
    sender: Sender,
    target: &Value,
    id: u16,
    args: &[Option<Value>],
) -> Result<NativeAnswer, SendRefused>
    requires at_least_1 { 1 ≤ sender.digits }
    requires at_most_18 { sender.digits ≤ 18 }
    requires built { IsTrue (is_built id) }
    requires reached { IsReached classes.now heap.old target.now id }
    requires target_there { IsThere heap.old target.now }
    requires args_there { AreThere heap.old args.now }
    requires fits { Fits classes.now heap.old }
    ensures { (facts : Facts) → facts.digits ≡ sender.digits → Comes result heap.old heap.new
        (outcome (setting facts classes.now sender) heap.old target.now id args.now) }
{
    told(call(alloc, id, heap, classes, target, args, sender.digits))
}
