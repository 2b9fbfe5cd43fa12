// Operators over values, and strings that are wanted of them.
ghost use Rattle.std.specs.Prelude.{◌≡◌, ◌≤◌, Some, None, [], ◌∷◌, IfOk};
ghost use Rattle.rx_eval.specs.Calling as calls;
ghost use Rattle.rx_eval.specs.Machine.{move_oper, move_prefix, move_wanted, pair_moved};
ghost use Rattle.rx_eval.specs.Steps.{moved};

use crate::call::{Pending, Sent};
use crate::pile::Pile;
use crate::step::{Step, push_bytes};
use rx_operators::message_name;
use rx_tree::{Awaited, Oper, OutOfMemory, Text, Value};
use sqlite_items::Items;
use std::alloc::Global;

// The message that asks an object for its string.
fn string_message(alloc: Global, object: u32) -> Result<Pending, OutOfMemory>
    ensures { IfOk result (λ sent. sent ≡ calls.asks_string object) }
{
    let name = Text::from_slice(alloc, b"STRING")?;
    Ok(Pending {
        sent: Sent::Message(Value::Ref(object), name, None, Items::new(alloc)),
        awaited: Awaited::String,
    })
}

// An operator as a message to an object.
fn operator_message(
    alloc: Global,
    oper: Oper,
    object: u32,
    args: Items<Option<Value>>,
) -> Result<Pending, OutOfMemory>
    ensures { IfOk result (λ sent. sent ≡ calls.operator_message oper object args) }
{
    let name = Text::from_slice(alloc, message_name(oper))?;
    Ok(Pending {
        sent: Sent::Message(Value::Ref(object), name, None, args),
        awaited: Awaited::Message,
    })
}

// An operator between two values.
fn operate(
    alloc: Global,
    digits: u8,
    oper: Oper,
    left: Value,
    right: Value,
    stack: &mut Pile<Value>,
) -> Result<Step, OutOfMemory>
    requires at_least_1 { 1 ≤ digits }
    requires at_most_18 { digits ≤ 18 }
    ensures { IfOk result (λ step. moved step stack.new ≡ move_oper digits oper left right stack.old) }
{
    match left {
        Value::Ref(object) => {
            let mut args = Items::new(alloc);
            args.push(Some(right))?;
            Ok(Step::Calls(operator_message(alloc, oper, object, args)?, false))
        }
        Value::Str(left) => match right {
            Value::Ref(object) => {
                let sent = string_message(alloc, object)?;
                stack.push(Value::Str(left))?;
                Ok(Step::Calls(sent, true))
            }
            Value::Str(right) => {
                let answer = rx_operators::operate(alloc, oper, &left, &right, digits);
                push_bytes(alloc, stack, answer)
            }
        },
    }
}

/// Does an operator between two values.
pub(crate) fn do_oper(
    alloc: Global,
    digits: u8,
    oper: Oper,
    stack: &mut Pile<Value>,
) -> Result<Step, OutOfMemory>
    requires at_least_1 { 1 ≤ digits }
    requires at_most_18 { digits ≤ 18 }
    ensures { IfOk result (λ step. moved step stack.new ≡ pair_moved digits oper stack.old) }
{
    let Some(right) = stack.pop() else {
        return Ok(Step::Stuck);
    };
    let Some(left) = stack.pop() else {
        return Ok(Step::Stuck);
    };
    operate(alloc, digits, oper, left, right, stack)
}

/// Does an operator in front of a value.
pub(crate) fn do_prefix(
    alloc: Global,
    digits: u8,
    oper: Oper,
    right: Value,
    stack: &mut Pile<Value>,
) -> Result<Step, OutOfMemory>
    requires at_least_1 { 1 ≤ digits }
    requires at_most_18 { digits ≤ 18 }
    ensures { IfOk result (λ step. moved step stack.new ≡ move_prefix digits oper right stack.old) }
{
    match right {
        Value::Ref(object) => {
            let sent = operator_message(alloc, oper, object, Items::new(alloc))?;
            Ok(Step::Calls(sent, false))
        }
        Value::Str(right) => {
            let answer = rx_operators::operate_before(alloc, oper, &right, digits);
            push_bytes(alloc, stack, answer)
        }
    }
}

/// Wants a string of a value.
pub(crate) fn want_string(
    alloc: Global,
    value: Value,
    stack: &mut Pile<Value>,
) -> Result<Step, OutOfMemory>
    ensures { IfOk result (λ step. moved step stack.new ≡ move_wanted value stack.old) }
{
    match value {
        Value::Ref(object) => Ok(Step::Calls(string_message(alloc, object)?, true)),
        Value::Str(text) => {
            stack.push(Value::Str(text))?;
            Ok(Step::Next)
        }
    }
}
