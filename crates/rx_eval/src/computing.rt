// What code comes to from a place on.
ghost use Rattle.std.specs.Prelude.{◌≤◌, reverse, IfOk};
ghost use Rattle.rx_eval.specs.Code.{evaluation};
ghost use Rattle.rx_eval.specs.Computed.{IsComputed};
ghost use Rattle.rx_eval.specs.Places.{IsPlace};

use crate::call::Pending;
use crate::facts::Facts;
use crate::machine::execute;
use crate::pile::Pile;
use crate::postfix::Postfix;
use crate::step::Step;
use rx_tree::{OutOfMemory, Text, Value};
use sqlite_items::{Items, at as item_at};
use std::alloc::Global;

/// What code came to from a place on.
#[derive(Drop)]
pub enum Computed {
    /// The values of all its trees.
    Done(Items<Value>),
    /// A call, with the place to go on at, and the values that stand there below its answer.
    Call(Pending, usize, Items<Value>),
    /// The error of this number is raised.
    Raise(u8),
    /// This variable has no value, and NOVALUE is trapped.
    NoValue(Text),
    /// A growth of memory was refused.
    NoMemory,
}

/// What code comes to from a place on where these values stand, or want of memory.
pub(crate) fn compute_from(
    alloc: Global,
    facts: &Facts,
    code: &Postfix,
    place: usize,
    values: Vec<Value>,
) -> Result<Computed, OutOfMemory>
    requires placed { IsPlace code.now.instrs place (reverse values.items) }
    requires at_least_1 { 1 ≤ facts.now.frame.digits }
    requires at_most_18 { facts.now.frame.digits ≤ 18 }
    ensures { IfOk result (IsComputed code.now.instrs (evaluation code.now facts.now place values.items)) }
{
    let mut stack = Pile::from_vec(values);
    let mut at = place;
    while let Some(instr) = item_at(code.as_slice(), at) {
        let next = at + 1;
        match execute(alloc, facts, code.numbers(at), instr, &mut stack)? {
            Step::Next => at = next,
            Step::Raises(number) => return Ok(Computed::Raise(number)),
            Step::Lacks(name) => return Ok(Computed::NoValue(name)),
            Step::Calls(sent, again) => {
                let place = if again { at } else { next };
                return Ok(Computed::Call(sent, place, stack.into_items()));
            }
            Step::Stuck => unreachable!(),
        }
    }
    Ok(Computed::Done(stack.into_items()))
}
