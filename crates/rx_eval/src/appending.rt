// The code of expressions.
ghost use Rattle.std.specs.Prelude.{false, OnOk};
ghost use Rattle.rx_eval.specs.Whole.{AppendsArgs, AppendsOpers, AppendsParts, AppendsTerms, AppendsTree, WantsLeft};

use crate::building::{callee, calling_of, object_named, sending_of, wants_strings};
use crate::code::{Form, Instr};
use crate::facts::Body;
use crate::listing::Listing;
use rx_operators::is_join;
use rx_tree::{Expr, Oper, OutOfMemory, SendPart};
use std::alloc::Global;

// A string is wanted of the left operand of a join.
fn want_left(code: &mut Listing, oper: Oper) -> Result<(), OutOfMemory>
    ensures { OnOk result (WantsLeft oper code.old code.new) }
{
    if is_join(oper) {
        code.push(Instr::Wanted)?;
    }
    Ok(())
}

// Operators in front of what was appended last, the outermost one last.
fn append_opers(code: &mut Listing, opers: &[Oper]) -> Result<(), OutOfMemory>
    ensures { OnOk result (AppendsOpers opers.now code.old code.new) }
{
    let mut at = opers.len();
    while at > 0 {
        at -= 1;
        code.push(Instr::Prefix(opers[at]))?;
    }
    Ok(())
}

#[cycle(append)]
fn append_terms(
    alloc: Global,
    body: &Body,
    code: &mut Listing,
    terms: &[(Oper, Expr)],
) -> Result<(), OutOfMemory>
    ensures { OnOk result (AppendsTerms body.now terms.now code.old code.new) }
{
    for (oper, term) in terms {
        want_left(code, *oper)?;
        append(alloc, body, code, term)?;
        code.push(Instr::Oper(*oper))?;
    }
    Ok(())
}

#[cycle(append)]
fn append_args(
    alloc: Global,
    body: &Body,
    code: &mut Listing,
    args: &[Option<Expr>],
    strings: bool,
) -> Result<(), OutOfMemory>
    ensures { OnOk result (AppendsArgs body.now strings args.now code.old code.new) }
{
    for arg in args {
        if let Some(arg) = arg {
            append_tree(alloc, body, code, arg, strings)?;
        }
    }
    Ok(())
}

#[cycle(append)]
fn append_parts(
    alloc: Global,
    body: &Body,
    code: &mut Listing,
    parts: &[SendPart],
) -> Result<(), OutOfMemory>
    ensures { OnOk result (AppendsParts body.now parts.now code.old code.new) }
{
    for part in parts {
        append_args(alloc, body, code, part.args.as_slice(), false)?;
        let sending = sending_of(alloc, body, part)?;
        code.push(Instr::Send(sending))?;
    }
    Ok(())
}

/// Appends the code of an expression.
#[cycle(append)]
fn append(alloc: Global, body: &Body, code: &mut Listing, expr: &Expr) -> Result<(), OutOfMemory>
    ensures { OnOk result (AppendsTree body.now expr.now false code.old code.new) }
{
    match expr {
        Expr::Const(value) => {
            code.push(Instr::Const(value.share()?))?;
            Ok(())
        }
        Expr::Name(name) => {
            code.push(Instr::Name(name.share(alloc)?))?;
            Ok(())
        }
        Expr::Environment(name) => {
            let object = object_named(body, name);
            code.push(Instr::Environment(name.share()?, object))?;
            Ok(())
        }
        Expr::Prefix(opers, inner) => {
            append(alloc, body, code, inner.get())?;
            code.push(Instr::Begin(Form::Prefix))?;
            append_opers(code, opers.as_slice())?;
            Ok(())
        }
        Expr::Chain(first, terms) => {
            append(alloc, body, code, first.get())?;
            code.push(Instr::Begin(Form::Chain))?;
            append_terms(alloc, body, code, terms.as_slice())?;
            Ok(())
        }
        Expr::Group(inner) => {
            append(alloc, body, code, inner.get())?;
            code.push(Instr::Group)?;
            Ok(())
        }
        Expr::Function(name, is_string, args) => {
            let callee = callee(body, name, *is_string);
            append_args(alloc, body, code, args.as_slice(), wants_strings(callee))?;
            let calling = calling_of(alloc, name, *is_string, callee, args.as_slice())?;
            code.push(Instr::Function(calling))?;
            Ok(())
        }
        Expr::Sends(receiver, parts) => {
            append(alloc, body, code, receiver.get())?;
            code.push(Instr::Begin(Form::Sends))?;
            append_parts(alloc, body, code, parts.as_slice())?;
            Ok(())
        }
        Expr::Hole => Ok(()),
    }
}

/// Appends the code of one tree, of which a string may be wanted.
#[cycle(append)]
pub(crate) fn append_tree(
    alloc: Global,
    body: &Body,
    code: &mut Listing,
    expr: &Expr,
    string: bool,
) -> Result<(), OutOfMemory>
    ensures { OnOk result (AppendsTree body.now expr.now string code.old code.new) }
{
    append(alloc, body, code, expr)?;
    if string {
        code.push(Instr::Wanted)?;
    }
    Ok(())
}
