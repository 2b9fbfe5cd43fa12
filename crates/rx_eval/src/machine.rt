// One instruction.
ghost use Rattle.std.specs.Prelude.{◌≡◌, ◌≤◌, IfOk};
ghost use Rattle.rx_eval.specs.Machine.{move};
ghost use Rattle.rx_eval.specs.Sound.{IsSoundInstr};
ghost use Rattle.rx_eval.specs.Steps.{moved};

use crate::calling::do_function;
use crate::code::Instr;
use crate::facts::Facts;
use crate::operating::{do_oper, do_prefix, want_string};
use crate::pile::Pile;
use crate::reading::{environment, variable};
use crate::sending::do_send;
use crate::step::{Step, push_reading};
use rx_tree::{OutOfMemory, Value};
use std::alloc::Global;

/// Does one instruction. The values of the variables that it reads are sought at these places first.
pub(crate) fn execute(
    alloc: Global,
    facts: &Facts,
    places: &[usize],
    instr: &Instr,
    stack: &mut Pile<Value>,
) -> Result<Step, OutOfMemory>
    requires sound { IsSoundInstr instr.now }
    requires at_least_1 { 1 ≤ facts.now.frame.digits }
    requires at_most_18 { facts.now.frame.digits ≤ 18 }
    ensures { IfOk result (λ step. moved step stack.new ≡ move facts.now instr.now stack.old) }
{
    match instr {
        Instr::Const(value) => {
            stack.push(value.share()?)?;
            Ok(Step::Next)
        }
        Instr::Name(name) => {
            let reading = variable(alloc, facts, places, name)?;
            push_reading(stack, reading)
        }
        Instr::Environment(name, object) => {
            stack.push(environment(alloc, name, *object)?)?;
            Ok(Step::Next)
        }
        Instr::Begin(_) | Instr::Group => Ok(Step::Next),
        Instr::Oper(oper) => do_oper(alloc, facts.frame.digits, *oper, stack),
        Instr::Prefix(oper) => match stack.pop() {
            None => Ok(Step::Stuck),
            Some(right) => do_prefix(alloc, facts.frame.digits, *oper, right, stack),
        },
        Instr::Function(calling) => do_function(alloc, facts, calling, stack),
        Instr::Send(sending) => do_send(alloc, facts, places, sending, stack),
        Instr::Wanted => match stack.pop() {
            None => Ok(Step::Stuck),
            Some(value) => want_string(alloc, value, stack),
        },
    }
}
