// USE ARG.
ghost use Rattle.std.specs.Prelude.{◌≡◌, drop, OnOk};
ghost use Rattle.std.specs.Option.{option_copied};
ghost use Rattle.rx_tree.specs.declared.name.Name.{Name as Written};
ghost use Rattle.rx_frames.specs.Activities.{IsBegun};
ghost use Rattle.rx_machine.specs.Arguments.{are_enough, argument, number_in, refuses, row, rows, values_behind};
ghost use Rattle.rx_machine.specs.Assigning.{assign_from};
ghost use Rattle.rx_kernel.specs.States.{world_of};
ghost use Rattle.rx_kernel.specs.Steps.{Comes, after_assigning};

use crate::assigning::share_given;
use crate::state::State;
use rx_clause_tree::Parameter;
use rx_names::NamesRefused;
use rx_tree::{Expr, FrameKind, OutOfMemory, Value};
use std::alloc::Global;

/// Error 40, which STRICT raises in the main program and in a routine.
const INCORRECT_CALL: u8 = 40;

/// Error 93, which it raises in a method.
const INCORRECT_METHOD_CALL: u8 = 93;

// ---- lists

// The first of some arguments, if it is given.
fn argument(args: &[Option<Value>]) -> Option<&Value>
    ensures { option_copied result ≡ argument args.now }
{
    match args {
        [Some(value), ..] => Some(value),
        _ => None,
    }
}

// The arguments behind the first.
fn other_args(args: &[Option<Value>]) -> &[Option<Value>]
    ensures { result.now ≡ drop 1 args.now }
{
    match args {
        [_, others @ ..] => others,
        [] => args,
    }
}

// The values behind the first.
fn other_values(values: &[Value]) -> &[Value]
    ensures { result.now ≡ drop 1 values.now }
{
    match values {
        [_, others @ ..] => others,
        [] => values,
    }
}

// ---- STRICT

// Whether each parameter has an argument, or a default.
fn are_enough(parameters: &[Parameter], args: &[Option<Value>]) -> bool
    ensures { result ≡ are_enough parameters.now args.now }
{
    let mut args = args;
    for parameter in parameters {
        if argument(args).is_none() && parameter.default.is_none() {
            return false;
        }
        args = other_args(args);
    }
    true
}

fn number_in(kind: FrameKind) -> u8
    ensures { result ≡ number_in kind }
{
    match kind {
        FrameKind::Method => INCORRECT_METHOD_CALL,
        FrameKind::Main | FrameKind::Routine | FrameKind::Internal => INCORRECT_CALL,
    }
}

/// The error that USE ARG raises before it evaluates anything, if it raises one: STRICT wants an argument for each parameter
/// without a default, and none more.
pub(crate) fn refusal(
    strict: bool,
    kind: FrameKind,
    parameters: &[Parameter],
    args: &[Option<Value>],
) -> Option<u8>
    ensures { result ≡ refuses strict kind parameters.now args.now }
{
    if !strict || args.len() <= parameters.len() && are_enough(parameters, args) {
        None
    } else {
        Some(number_in(kind))
    }
}

// ---- what the variables get

// What the variable of a parameter gets: its argument, or its default's value, or none.
fn value_for<'v>(
    argument: Option<&'v Value>,
    default: &Option<Expr>,
    values: &'v [Value],
) -> Option<&'v Value>
    ensures { (name : Written)
        → (name, option_copied result) ≡ row name (option_copied argument.entry) default.now values.now }
{
    match (argument, default) {
        (Some(value), _) => Some(value),
        (None, Some(_)) => values.first(),
        (None, None) => None,
    }
}

// The values of the defaults that are left behind a parameter.
fn values_behind<'v>(
    argument: Option<&Value>,
    default: &Option<Expr>,
    values: &'v [Value],
) -> &'v [Value]
    ensures { result.now ≡ values_behind (option_copied argument.entry) default.now values.now }
{
    match (argument, default) {
        (None, Some(_)) => other_values(values),
        _ => values,
    }
}

impl State {
    // Each variable gets its argument, or its default's value, or none, in order.
    fn use_all(
        &mut self,
        alloc: Global,
        a: u32,
        parameters: &[Parameter],
        args: &[Option<Value>],
        values: &[Value],
    ) -> Result<(), NamesRefused>
        requires begun { IsBegun self.old.parts.stacks a }
        ensures comes { Comes result (world_of self.new)
            (assign_from (world_of self.old) a (rows parameters.now args.now values.now)) }
        ensures begun { IsBegun self.new.parts.stacks a }
    {
        let mut args = args;
        let mut values = values;
        for parameter in parameters {
            let argument = argument(args);
            let value = share_given(value_for(argument, &parameter.default, values))?;
            self.assign(alloc, a, &parameter.name, value)?;
            values = values_behind(argument, &parameter.default, values);
            args = other_args(args);
        }
        Ok(())
    }

    /// The variables of these parameters of USE ARG get their arguments, or the values of their defaults, or none, in order.
    /// Error 5 is raised at a name that is too long.
    pub(crate) fn uses(
        &mut self,
        alloc: Global,
        a: u32,
        line: u32,
        parameters: &[Parameter],
        args: &[Option<Value>],
        values: &[Value],
    ) -> Result<(), OutOfMemory>
        requires begun { IsBegun self.old.parts.stacks a }
        ensures { OnOk result (world_of self.new ≡ after_assigning a line
            (assign_from (world_of self.old) a (rows parameters.now args.now values.now))) }
    {
        let done = self.use_all(alloc, a, parameters, args, values);
        self.after_assigning(a, line, done)
    }
}
