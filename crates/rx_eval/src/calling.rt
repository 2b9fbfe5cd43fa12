// Calls of functions over values.
ghost use Rattle.std.specs.Prelude.{ℕ, ◌≡◌, ◌≤◌, false, [], List, Option, None, IfOk, IsTrue, if◌then◌else◌, codes};
ghost use Rattle.std.specs.Str.{bytes_eq};
ghost use Rattle.rx_builtin.specs.Frames.{arg_object};
ghost use Rattle.rx_builtin.specs.Functions.{is_builtin};
ghost use Rattle.rx_tree.specs.declared.value.Value.{Value};
ghost use Rattle.rx_eval.specs.Calling as calls;
ghost use Rattle.rx_tree.specs.declared.activity.Awaited.TheVariants as awaited;
ghost use Rattle.rx_eval.specs.declared.step.Step.TheVariants as step;
ghost use Rattle.rx_eval.specs.Machine.{Moved, move_callee, moved_by, popping};
ghost use Rattle.rx_eval.specs.Sound.{IsSound};
ghost use Rattle.rx_eval.specs.Steps.{moved, popped};

use crate::call::{Pending, Sent};
use crate::code::{Callee, Calling};
use crate::facts::Facts;
use crate::pile::Pile;
use crate::step::{Step, push_text};
use rx_builtin::{argument_object, call};
use rx_tree::{Awaited, OutOfMemory, Text, Value};
use sqlite_items::Items;
use std::alloc::Global;

/// The arguments, taken off the values; none where there are too few values.
pub(crate) fn pop_args(
    alloc: Global,
    shape: &[bool],
    stack: &mut Pile<Value>,
) -> Result<Option<Items<Option<Value>>>, OutOfMemory>
    ensures { IfOk result (λ args. (go : List (Option Value) → List Value → Moved) → popping shape.now stack.old [] go ≡ popped args stack.new go) }
{
    let mut args = Pile::new(alloc);
    for given in shape {
        if *given {
            match stack.pop() {
                None => return Ok(None),
                Some(value) => args.push(Some(value))?,
            }
        } else {
            args.push(None)?;
        }
    }
    Ok(Some(args.turned()))
}

// A value as a text.
fn text_of(alloc: Global, value: &Value) -> Result<Text, OutOfMemory>
    ensures { IfOk result (λ text. text ≡ calls.text_of value.now) }
{
    match value {
        Value::Str(text) => text.share(),
        Value::Ref(_) => Text::from_slice(alloc, b""),
    }
}

// Arguments as texts.
fn texts_of(alloc: Global, values: &[Option<Value>]) -> Result<Items<Option<Text>>, OutOfMemory>
    ensures { IfOk result (λ texts. texts ≡ calls.texts_of values.now) }
{
    let mut texts = Items::new(alloc);
    for value in values {
        match value {
            None => texts.push(None)?,
            Some(value) => texts.push(Some(text_of(alloc, value)?))?,
        }
    }
    Ok(texts)
}

// The object that a function gives in place of a text.
fn object_given(name: &Text, args: &[Option<Text>], frame: &rx_builtin::Facts) -> Option<u32>
    ensures { result ≡ (if bytes_eq name.now (codes "ARG") then arg_object args.now frame.now else None) }
{
    if name.bytes() == b"ARG".as_slice() {
        argument_object(args, frame)
    } else {
        None
    }
}

// Pushes what a built-in function gives.
#[tactic(auto, unfolding(crate::specs::Calling::builtin_value))]
fn do_builtin(
    alloc: Global,
    facts: &Facts,
    name: &Text,
    args: &[Option<Value>],
    stack: &mut Pile<Value>,
) -> Result<Step, OutOfMemory>
    requires builtin { IsTrue (is_builtin name.now) }
    requires at_least_1 { 1 ≤ facts.now.frame.digits }
    requires at_most_18 { facts.now.frame.digits ≤ 18 }
    ensures { IfOk result (λ step. moved step stack.new ≡ moved_by stack.old (calls.builtin_value facts.now name.now args.now)) }
{
    let texts = texts_of(alloc, args)?;
    match object_given(name, texts.as_slice(), &facts.frame) {
        Some(object) => {
            stack.push(Value::Ref(object))?;
            Ok(Step::Next)
        }
        None => {
            let answer = call(alloc, name.bytes(), texts.as_slice(), &facts.frame);
            push_text(stack, answer)
        }
    }
}

fn called(sent: Sent) -> Step
    ensures { result ≡ step.Calls (calls.pending sent awaited.Function) false }
{
    let awaited = Awaited::Function;
    Step::Calls(Pending { sent, awaited }, false)
}

// Calls a function with its arguments.
fn call_function(
    alloc: Global,
    facts: &Facts,
    calling: &Calling,
    args: Items<Option<Value>>,
    stack: &mut Pile<Value>,
) -> Result<Step, OutOfMemory>
    requires sound { IsSound calling.now }
    requires at_least_1 { 1 ≤ facts.now.frame.digits }
    requires at_most_18 { facts.now.frame.digits ≤ 18 }
    ensures { IfOk result (λ step. moved step stack.new ≡ move_callee facts.now calling.now.callee calling.now.name args stack.old) }
{
    match calling.callee {
        Callee::Label => Ok(called(Sent::Label(calling.name.share()?, args))),
        Callee::Builtin => do_builtin(alloc, facts, &calling.name, args.as_slice(), stack),
        Callee::Routine => Ok(called(Sent::Routine(calling.name.share()?, args))),
    }
}

/// Does a call of a function.
pub(crate) fn do_function(
    alloc: Global,
    facts: &Facts,
    calling: &Calling,
    stack: &mut Pile<Value>,
) -> Result<Step, OutOfMemory>
    requires sound { IsSound calling.now }
    requires at_least_1 { 1 ≤ facts.now.frame.digits }
    requires at_most_18 { facts.now.frame.digits ≤ 18 }
    ensures { IfOk result (λ step. moved step stack.new ≡ popping calling.now.shape stack.old [] (move_callee facts.now calling.now.callee calling.now.name)) }
{
    match pop_args(alloc, calling.shape.as_slice(), stack)? {
        None => Ok(Step::Stuck),
        Some(args) => call_function(alloc, facts, calling, args, stack),
    }
}
