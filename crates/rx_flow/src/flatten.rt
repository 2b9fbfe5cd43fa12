// From clauses to flat code.
ghost use Rattle.std.specs.Prelude.{◌≡◌, ◌+◌, ◌<◌, length, slice_get, IfOk, OnOk, [], None, Some};
ghost use Rattle.rx_clause_tree.specs.declared.clause.ClauseKind.TheVariants as kind;
ghost use Rattle.rx_flow.specs.Rules.{made};
ghost use Rattle.rx_flow.specs.Kept.{kept_test as kept_test_of, select_of};
ghost use Rattle.rx_flow.specs.declared.code.Op.TheVariants as op;
ghost use Rattle.rx_flow.specs.Laid.{Laid, LaidWhen, LaidWhens, Opened, plan, plans, with_entry, with_op, with_set};

use crate::code::{Code, Op, here, keep, next_number, patch, put};
use crate::keeping::{kept_group, kept_loop, kept_select, kept_simple, kept_test};
use rx_clause_tree::{Clause, ClauseKind, Header, Simple, Test, When};
use rx_tree::{Expr, OutOfMemory};
use std::alloc::Global;

fn flatten_simple(
    alloc: Global,
    code: &mut Code,
    line: u32,
    simple: &Simple,
) -> Result<(), OutOfMemory>
    ensures { OnOk result (Laid code.old code.new (plan (made line (kind.Simple simple.now)))) }
{
    let number = next_number(code)?;
    let clause = kept_simple(alloc, line, simple)?;
    keep(code, clause)?;
    put(code, Op::Clause(number))?;
    Ok(())
}

// The number of a clause, and the place of an op that is patched later.
#[derive(Clone, Copy)]
struct Pending {
    number: u32,
    place: u32,
}

// A SELECT is begun, with OTHERWISE or without it: a jump over the exit, at which its THEN clauses go on.
fn open_select(
    alloc: Global,
    code: &mut Code,
    line: u32,
    otherwise: bool,
) -> Result<Pending, OutOfMemory>
    ensures { IfOk result
        (λ exit. Opened code.old code.new (select_of line otherwise) exit.number exit.place) }
{
    let number = next_number(code)?;
    keep(code, kept_select(alloc, line, otherwise))?;
    let at = here(code)?;
    put(code, Op::Jump(0))?;
    let place = here(code)?;
    put(code, Op::Jump(0))?;
    let first = here(code)?;
    patch(code, at, Op::Jump(first));
    Ok(Pending { number, place })
}

// A test is begun, and stands at a place.
fn open_test(alloc: Global, code: &mut Code, line: u32, test: &Expr) -> Result<Pending, OutOfMemory>
    ensures number { IfOk result (λ exit. exit.number ≡ length code.old.clauses) }
    ensures place { IfOk result (λ exit. exit.place ≡ length code.old.ops) }
    ensures code { OnOk result
        (code.new ≡ with_op (with_entry code.old (kept_test_of line test.now)) (op.Jump 0)) }
{
    let number = next_number(code)?;
    let clause = kept_test(alloc, line, test)?;
    keep(code, clause)?;
    let place = here(code)?;
    put(code, Op::Jump(0))?;
    Ok(Pending { number, place })
}

// The test leads to the end of the code where it fails.
fn close_test(code: &mut Code, test: Pending) -> Result<(), OutOfMemory>
    requires { test.place < length code.old.ops }
    ensures { OnOk result
        (code.new ≡ with_set code.old test.place (op.Test test.number (length code.old.ops))) }
{
    let end = here(code)?;
    patch(code, test.place, Op::Test(test.number, end));
    Ok(())
}

// A jump ends the THEN clause, and the test leads behind it.
fn split_test(code: &mut Code, test: Pending) -> Result<u32, OutOfMemory>
    requires { test.place < length code.old.ops }
    ensures jump { IfOk result (λ jump. jump ≡ length code.old.ops) }
    ensures code { OnOk result
        (code.new ≡ with_set
        (with_op code.old (op.Jump 0)) test.place (op.Test test.number (length code.old.ops + 1))) }
{
    let jump = here(code)?;
    put(code, Op::Jump(0))?;
    let other = here(code)?;
    patch(code, test.place, Op::Test(test.number, other));
    Ok(jump)
}

// The jump leads to the end of the code.
fn close_jump(code: &mut Code, jump: u32) -> Result<(), OutOfMemory>
    requires { jump < length code.old.ops }
    ensures { OnOk result (code.new ≡ with_set code.old jump (op.Jump (length code.old.ops))) }
{
    let end = here(code)?;
    patch(code, jump, Op::Jump(end));
    Ok(())
}

#[cycle(flatten)]
fn flatten_if(
    alloc: Global,
    code: &mut Code,
    chosen: &Clause,
    line: u32,
    test: &Expr,
) -> Result<(), OutOfMemory>
    ensures { OnOk result
        (Laid code.old code.new (plan (made line (kind.If test.now chosen.now None)))) }
{
    let pending = open_test(alloc, code, line, test)?;
    flatten_clause(alloc, code, chosen)?;
    close_test(code, pending)
}

#[cycle(flatten)]
fn flatten_when(
    alloc: Global,
    code: &mut Code,
    when: &When,
    line: u32,
    exit: u32,
) -> Result<(), OutOfMemory>
    ensures { OnOk result (LaidWhen exit code.old code.new line when.now) }
{
    let pending = open_test(alloc, code, line, &when.test)?;
    flatten_clause(alloc, code, &when.chosen)?;
    put(code, Op::Jump(exit))?;
    close_test(code, pending)
}

#[cycle(flatten)]
fn flatten_whens(
    alloc: Global,
    code: &mut Code,
    whens: &[When],
    line: u32,
    exit: u32,
) -> Result<(), OutOfMemory>
    ensures { OnOk result (LaidWhens exit code.old code.new line whens.now) }
{
    for when in whens {
        flatten_when(alloc, code, when, line, exit)?;
    }
    Ok(())
}

#[cycle(flatten)]
fn flatten_select(
    alloc: Global,
    code: &mut Code,
    whens: &[When],
    line: u32,
) -> Result<(), OutOfMemory>
    ensures { OnOk result (Laid code.old code.new (plan (made line (kind.Select whens.now None)))) }
{
    let exit = open_select(alloc, code, line, false)?;
    flatten_whens(alloc, code, whens, line, exit.place)?;
    put(code, Op::NoWhen(exit.number))?;
    close_jump(code, exit.place)
}

#[cycle(flatten)]
fn flatten_group(
    alloc: Global,
    code: &mut Code,
    clauses: &[Clause],
    line: u32,
) -> Result<(), OutOfMemory>
    ensures { OnOk result (Laid code.old code.new (plan (made line (kind.Group clauses.now)))) }
{
    let number = next_number(code)?;
    keep(code, kept_group(alloc, line))?;
    put(code, Op::Clause(number))?;
    flatten_clauses(alloc, code, clauses)
}

// A SELECT without a WHEN, but with OTHERWISE, is begun like a group.
#[cycle(flatten)]
fn flatten_otherwise(
    alloc: Global,
    code: &mut Code,
    clauses: &[Clause],
    line: u32,
) -> Result<(), OutOfMemory>
    ensures { OnOk result
        (Laid code.old code.new (plan (made line (kind.Select [] (Some clauses.now))))) }
{
    let number = next_number(code)?;
    keep(code, kept_select(alloc, line, true))?;
    put(code, Op::Clause(number))?;
    flatten_clauses(alloc, code, clauses)
}

#[cycle(flatten)]
fn flatten_loop(
    alloc: Global,
    code: &mut Code,
    clauses: &[Clause],
    line: u32,
    header: &Header,
    test: &Test,
) -> Result<(), OutOfMemory>
    ensures { OnOk result
        (Laid code.old code.new (plan (made line (kind.Loop header.now test.now clauses.now)))) }
{
    let number = next_number(code)?;
    let clause = kept_loop(alloc, line, header, test)?;
    keep(code, clause)?;
    put(code, Op::Header(number))?;
    let turn = here(code)?;
    put(code, Op::Jump(0))?;
    flatten_clauses(alloc, code, clauses)?;
    put(code, Op::Jump(turn))?;
    let end = here(code)?;
    patch(code, turn, Op::Turn(number, end));
    Ok(())
}

/// Appends the code of a clause.
#[cycle(flatten)]
pub(crate) fn flatten_clause(
    alloc: Global,
    code: &mut Code,
    clause: &Clause,
) -> Result<(), OutOfMemory>
    ensures { OnOk result (Laid code.old code.new (plan clause.now)) }
{
    let line = clause.line;
    match &clause.kind {
        ClauseKind::Simple(simple) => flatten_simple(alloc, code, line, simple),
        ClauseKind::If(test, chosen, other) => match other {
            None => flatten_if(alloc, code, chosen.get(), line, test),
            Some(other) => {
                let test = open_test(alloc, code, line, test)?;
                flatten_clause(alloc, code, chosen.get())?;
                let jump = split_test(code, test)?;
                flatten_clause(alloc, code, other.get())?;
                close_jump(code, jump)
            }
        },
        ClauseKind::Select(whens, others) => match others {
            None => flatten_select(alloc, code, whens.as_slice(), line),
            Some(others) => {
                if whens.len() == 0 {
                    flatten_otherwise(alloc, code, others.as_slice(), line)
                } else {
                    let exit = open_select(alloc, code, line, true)?;
                    flatten_whens(alloc, code, whens.as_slice(), line, exit.place)?;
                    flatten_clauses(alloc, code, others.as_slice())?;
                    close_jump(code, exit.place)
                }
            }
        },
        ClauseKind::Group(clauses) => flatten_group(alloc, code, clauses.as_slice(), line),
        ClauseKind::Loop(header, test, clauses) => {
            flatten_loop(alloc, code, clauses.as_slice(), line, header, test)
        }
    }
}

#[cycle(flatten)]
fn flatten_clauses(alloc: Global, code: &mut Code, clauses: &[Clause]) -> Result<(), OutOfMemory>
    ensures { OnOk result (Laid code.old code.new (plans clauses.now)) }
{
    for clause in clauses {
        flatten_clause(alloc, code, clause)?;
    }
    Ok(())
}
