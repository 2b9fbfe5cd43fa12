// Clauses that hold no other clause.
ghost use Rattle.std.specs.Prelude.{◌≡◌, IfOk};
ghost use Rattle.rx_clause_tree.specs.declared.simple.Simple.TheVariants.{SendAssign, RaiseSyntax, RaiseUser};

use crate::instruction::{
    Forward, Parameter, Routine, Trap, share_condition, share_given, share_names,
};
use crate::template::Parse;
use rx_tree::{Condition, Expr, Name, OutOfMemory, SendPart, Text, TraceSetting};
use sqlite_items::Items;
use std::alloc::Global;

/// What a clause does that holds no other clause.
#[derive(Drop)]
pub enum Simple {
    /// `name:`
    Label(Text),
    /// `variable = e`. `variable += e` is the assignment of `variable + (e)`, and so with other operators.
    Assign(Name, Expr),
    /// `receiver~name = e` and `receiver[i] = e`: the receiver, the message without the `=`, and the value.
    SendAssign(Expr, SendPart, Expr),
    /// A message term.
    Message(Expr),
    /// `SAY [e]`
    Say(Option<Expr>),
    /// `NOP`
    Nop,
    /// `LEAVE [v]`
    Leave(Option<Name>),
    /// `ITERATE [v]`
    Iterate(Option<Name>),
    /// `CALL name [args]`
    Call(Routine),
    /// `CALL ON USER c [NAME label]`. Without a label it is the condition's name.
    CallOn(Trap),
    /// `CALL OFF USER c`
    CallOff(Condition),
    /// `RETURN [e]`
    Return(Option<Expr>),
    /// `EXIT [e]`
    Exit(Option<Expr>),
    /// `SIGNAL label`
    Signal(Text),
    /// `SIGNAL ON c [NAME label]`. Without a label it is the condition's name.
    SignalOn(Trap),
    /// `SIGNAL OFF c`
    SignalOff(Condition),
    /// `PROCEDURE [EXPOSE names]`
    Procedure(Items<Name>),
    /// `EXPOSE names`
    Expose(Items<Name>),
    /// `USE [STRICT] ARG v [= e], ..`, with whether it is strict.
    UseArg(bool, Items<Parameter>),
    /// `PARSE`, `ARG` and `PULL`
    Parse(Parse),
    /// `PUSH [e]`
    Push(Option<Expr>),
    /// `QUEUE [e]`
    Queue(Option<Expr>),
    /// `DROP names`
    Drop(Items<Name>),
    /// `NUMERIC DIGITS [e]`
    Digits(Option<Expr>),
    /// `GUARD ON [WHEN e]`
    GuardOn(Option<Expr>),
    /// `GUARD OFF [WHEN e]`
    GuardOff(Option<Expr>),
    /// `REPLY [e]`
    Reply(Option<Expr>),
    /// `FORWARD`
    Forward(Forward),
    /// `RAISE SYNTAX n [DESCRIPTION e]`
    RaiseSyntax(Expr, Option<Expr>),
    /// `RAISE USER c [DESCRIPTION e] [RETURN e]`
    RaiseUser(Text, Option<Expr>, Option<Expr>),
    /// `TRACE A`, `R`, `N` and `O`
    Trace(TraceSetting),
}

// An equal assignment by a message, or want of memory.
fn share_send(
    alloc: Global,
    receiver: &Expr,
    part: &SendPart,
    expr: &Expr,
) -> Result<Simple, OutOfMemory>
    ensures { IfOk result (λ simple. simple ≡ SendAssign receiver.now part.now expr.now) }
{
    let receiver = receiver.share(alloc)?;
    let part = part.share(alloc)?;
    Ok(Simple::SendAssign(receiver, part, expr.share(alloc)?))
}

// An equal name where there is one, or want of memory.
fn share_name(alloc: Global, name: &Option<Name>) -> Result<Option<Name>, OutOfMemory>
    ensures { IfOk result (λ shared. shared ≡ name.now) }
{
    match name {
        None => Ok(None),
        Some(name) => Ok(Some(name.share(alloc)?)),
    }
}

// An equal RAISE SYNTAX, or want of memory.
fn share_syntax(alloc: Global, number: &Expr, given: &Option<Expr>) -> Result<Simple, OutOfMemory>
    ensures { IfOk result (λ simple. simple ≡ RaiseSyntax number.now given.now) }
{
    let number = number.share(alloc)?;
    Ok(Simple::RaiseSyntax(number, share_given(alloc, given)?))
}

// An equal RAISE USER, or want of memory.
fn share_user(
    alloc: Global,
    name: &Text,
    given: &Option<Expr>,
    value: &Option<Expr>,
) -> Result<Simple, OutOfMemory>
    ensures { IfOk result (λ simple. simple ≡ RaiseUser name.now given.now value.now) }
{
    let name = name.share()?;
    let given = share_given(alloc, given)?;
    Ok(Simple::RaiseUser(name, given, share_given(alloc, value)?))
}

impl Simple {
    /// An equal clause, or want of memory.
    pub fn share(&self, alloc: Global) -> Result<Simple, OutOfMemory>
        ensures same { IfOk result (λ simple. simple ≡ self.now) }
    {
        Ok(match self {
            Simple::Label(name) => Simple::Label(name.share()?),
            Simple::Assign(name, expr) => Simple::Assign(name.share(alloc)?, expr.share(alloc)?),
            Simple::SendAssign(receiver, part, expr) => share_send(alloc, receiver, part, expr)?,
            Simple::Message(expr) => Simple::Message(expr.share(alloc)?),
            Simple::Say(given) => Simple::Say(share_given(alloc, given)?),
            Simple::Nop => Simple::Nop,
            Simple::Leave(name) => Simple::Leave(share_name(alloc, name)?),
            Simple::Iterate(name) => Simple::Iterate(share_name(alloc, name)?),
            Simple::Call(routine) => Simple::Call(routine.share(alloc)?),
            Simple::CallOn(trap) => Simple::CallOn(trap.share()?),
            Simple::CallOff(condition) => Simple::CallOff(share_condition(condition)?),
            Simple::Return(given) => Simple::Return(share_given(alloc, given)?),
            Simple::Exit(given) => Simple::Exit(share_given(alloc, given)?),
            Simple::Signal(label) => Simple::Signal(label.share()?),
            Simple::SignalOn(trap) => Simple::SignalOn(trap.share()?),
            Simple::SignalOff(condition) => Simple::SignalOff(share_condition(condition)?),
            Simple::Procedure(names) => Simple::Procedure(share_names(alloc, names.as_slice())?),
            Simple::Expose(names) => Simple::Expose(share_names(alloc, names.as_slice())?),
            Simple::UseArg(strict, parameters) => {
                Simple::UseArg(*strict, Parameter::share_all(alloc, parameters.as_slice())?)
            }
            Simple::Parse(parse) => Simple::Parse(parse.share(alloc)?),
            Simple::Push(given) => Simple::Push(share_given(alloc, given)?),
            Simple::Queue(given) => Simple::Queue(share_given(alloc, given)?),
            Simple::Drop(names) => Simple::Drop(share_names(alloc, names.as_slice())?),
            Simple::Digits(given) => Simple::Digits(share_given(alloc, given)?),
            Simple::GuardOn(given) => Simple::GuardOn(share_given(alloc, given)?),
            Simple::GuardOff(given) => Simple::GuardOff(share_given(alloc, given)?),
            Simple::Reply(given) => Simple::Reply(share_given(alloc, given)?),
            Simple::Forward(forward) => Simple::Forward(forward.share(alloc)?),
            Simple::RaiseSyntax(number, given) => share_syntax(alloc, number, given)?,
            Simple::RaiseUser(name, given, value) => share_user(alloc, name, given, value)?,
            Simple::Trace(setting) => Simple::Trace(*setting),
        })
    }
}
