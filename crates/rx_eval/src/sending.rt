// Messages of message terms over values.
ghost use Rattle.std.specs.Prelude.{ℕ, ◌≡◌, [], Option, IfOk};
ghost use Rattle.rx_eval.specs.Calling as calls;
ghost use Rattle.rx_eval.specs.Machine.{Moved, class_moved, message_moved, move_send, popping, scope_moved};
ghost use Rattle.rx_eval.specs.Steps.{moved, scoped};

use crate::call::{Pending, Sent};
use crate::calling::pop_args;
use crate::code::{Class, Sending};
use crate::facts::Facts;
use crate::pile::Pile;
use crate::reading::{Reading, symbol};
use crate::step::Step;
use rx_tree::{Awaited, OutOfMemory, Text, Value};
use sqlite_items::Items;
use std::alloc::Global;

/// The class in which a method is sought first.
#[derive(Drop)]
pub enum Scope {
    At(Option<u32>),
    /// The error of this number.
    Raises(u8),
    /// A variable without a value, where NOVALUE is trapped.
    Lacks(Text),
}

// The error of a class that is a string.
const INCORRECT_METHOD_CALL: u8 = 93;

fn class_of(class: Reading) -> Scope
    ensures { (go : Option ℕ → Moved) → scoped result go ≡ class_moved class go }
{
    match class {
        Reading::Gives(Value::Ref(object)) => Scope::At(Some(object)),
        Reading::Gives(Value::Str(_)) => Scope::Raises(INCORRECT_METHOD_CALL),
        Reading::NoValue(name) => Scope::Lacks(name),
        Reading::Raises(number) => Scope::Raises(number),
    }
}

fn scope_of(
    alloc: Global,
    facts: &Facts,
    places: &[usize],
    class: &Option<Class>,
) -> Result<Scope, OutOfMemory>
    ensures { IfOk result (λ scope. (go : Option ℕ → Moved) → scoped scope go ≡ scope_moved facts.now class.now go) }
{
    match class {
        None => Ok(Scope::At(None)),
        Some(class) => {
            let class = symbol(alloc, facts, places, &class.name, class.object)?;
            Ok(class_of(class))
        }
    }
}

fn message(
    sending: &Sending,
    args: Items<Option<Value>>,
    target: Value,
    scope: Option<u32>,
    stack: &mut Pile<Value>,
) -> Result<Step, OutOfMemory>
    ensures { IfOk result (λ step. moved step stack.new ≡ message_moved sending.now args target stack.old scope) }
{
    let name = sending.message.share()?;
    if sending.back {
        stack.push(target.share()?)?;
    }
    let awaited = if sending.back {
        Awaited::Dropped
    } else {
        Awaited::Message
    };
    let sent = Sent::Message(target, name, scope, args);
    Ok(Step::Calls(Pending { sent, awaited }, false))
}

fn send(
    alloc: Global,
    facts: &Facts,
    places: &[usize],
    sending: &Sending,
    args: Items<Option<Value>>,
    stack: &mut Pile<Value>,
) -> Result<Step, OutOfMemory>
    ensures { IfOk result (λ step. moved step stack.new ≡ move_send facts.now sending.now args stack.old) }
{
    let Some(target) = stack.pop() else {
        return Ok(Step::Stuck);
    };
    match scope_of(alloc, facts, places, &sending.class)? {
        Scope::At(scope) => message(sending, args, target, scope, stack),
        Scope::Raises(number) => Ok(Step::Raises(number)),
        Scope::Lacks(class) => Ok(Step::Lacks(class)),
    }
}

/// Does a message of a message term. The value of the symbol of a class is sought at these places first.
pub(crate) fn do_send(
    alloc: Global,
    facts: &Facts,
    places: &[usize],
    sending: &Sending,
    stack: &mut Pile<Value>,
) -> Result<Step, OutOfMemory>
    ensures { IfOk result (λ step. moved step stack.new ≡ popping sending.now.shape stack.old [] (move_send facts.now sending.now)) }
{
    match pop_args(alloc, sending.shape.as_slice(), stack)? {
        None => Ok(Step::Stuck),
        Some(args) => send(alloc, facts, places, sending, args, stack),
    }
}
