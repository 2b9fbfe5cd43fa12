// What stands at a place of code. The body is passed for the contracts alone.
ghost use Rattle.std.specs.Prelude.{◌≡◌, ◌<◌, ◌^◌, length, slice_get, Some, IfSome, IfNone};
ghost use Rattle.rx_flow.specs.declared.code.Op.TheVariants as op;
ghost use Rattle.rx_flow.specs.declared.finding.Look.TheVariants as look;
ghost use Rattle.rx_flow.specs.Stands.{Stands};
ghost use Rattle.rx_flow.specs.Finds.{IsEnd, IsNext, IsNoTurn, IsTurn};
ghost use Rattle.rx_flow.specs.Looks.{Sees, is_label_entry, jump_of, turn_of};

use crate::code::{Code, Op};
use crate::found::{Found, Turn};
use crate::labels::label;
use rx_clause_tree::Body;

/// What stands at a place.
#[derive(Clone, Copy)]
pub enum Look {
    /// Nothing that is done: the code goes on there.
    Onward(u32),
    /// A clause.
    Stands(Found),
    /// Nothing that is left in the innermost list.
    End,
}

// The place to which a jump at a place leads.
fn jump_at(code: &Code, place: u32) -> Option<u32>
    ensures { result ≡ jump_of (slice_get code.now.ops place) }
{
    match code.ops.get(place as usize) {
        Some(Op::Jump(to)) => Some(*to),
        _ => None,
    }
}

// Whether the clause of a number is a label.
fn is_label_at(code: &Code, number: u32) -> bool
    ensures { result ≡ is_label_entry (slice_get code.now.clauses number) }
{
    match code.clauses.get(number as usize) {
        None => false,
        Some(clause) => label(clause).is_some(),
    }
}

fn look_at_jump(code: &Code, body: &Body, place: u32, to: u32) -> Look
    requires stands { Stands code.now body.now.clauses }
    requires here { slice_get code.now.ops place ≡ Some (op.Jump to) }
    ensures { Sees body.now.clauses place result }
{
    let _ = body;
    if to > place {
        return Look::Onward(to);
    }
    match jump_at(code, to) {
        None => Look::End,
        Some(next) => {
            if next > place {
                Look::Onward(next)
            } else {
                Look::End
            }
        }
    }
}

// A clause stands here.
fn clause(at: u32, number: u32, next: u32, otherwise: u32) -> Look
    ensures { result ≡ look.Stands
        (record { at = at; number = number; next = next; otherwise = otherwise }) }
{
    Look::Stands(Found {
        at,
        number,
        next,
        otherwise,
    })
}

fn look_at(code: &Code, body: &Body, place: u32, op: Op) -> Look
    requires stands { Stands code.now body.now.clauses }
    requires few { length code.now.ops < 2 ^ 32 }
    requires here { slice_get code.now.ops place ≡ Some op }
    ensures { Sees body.now.clauses place result }
{
    let next = place + 1;
    match op {
        Op::Jump(to) => look_at_jump(code, body, place, to),
        Op::Clause(number) => {
            if is_label_at(code, number) {
                Look::Onward(next)
            } else {
                clause(place, number, next, next)
            }
        }
        Op::Test(number, otherwise) => clause(place, number, next, otherwise),
        Op::Header(number) => clause(place, number, next, next),
        Op::NoWhen(number) => clause(place, number, next, next),
        Op::Turn(_, _) => Look::End,
    }
}

// What stands at this place of a body's code.
fn look_here(code: &Code, body: &Body, place: u32) -> Look
    requires stands { Stands code.now body.now.clauses }
    requires few { length code.now.ops < 2 ^ 32 }
    ensures { Sees body.now.clauses place result }
{
    match code.ops.get(place as usize) {
        None => Look::End,
        Some(op) => look_at(code, body, place, *op),
    }
}

/// The clause that is next from a place on, past labels and jumps; none where the innermost list ends.
pub fn find(code: &Code, body: &Body, place: u32) -> Option<Found>
    requires stands { Stands code.now body.now.clauses }
    requires few { length code.now.ops < 2 ^ 32 }
    ensures next { IfSome result (λ found. IsNext body.now.clauses place found) }
    ensures end { IfNone result (IsEnd body.now.clauses place) }
{
    let mut at = place;
    loop {
        match look_here(code, body, at) {
            Look::Onward(next) => at = next,
            Look::Stands(found) => return Some(found),
            Look::End => return None,
        }
    }
}

/// The numbers of the op of a turn: that of its clause, and the place behind the loop.
#[derive(Clone, Copy)]
pub struct TurnOp {
    pub number: u32,
    pub end: u32,
}

fn turn_op(code: &Code, place: u32) -> Option<TurnOp>
    ensures { result ≡ turn_of (slice_get code.now.ops place) }
{
    match code.ops.get(place as usize) {
        Some(Op::Turn(number, end)) => Some(TurnOp {
            number: *number,
            end: *end,
        }),
        _ => None,
    }
}

/// The turn of a loop, if one stands at this place.
pub fn turn_at(code: &Code, body: &Body, place: u32) -> Option<Turn>
    requires stands { Stands code.now body.now.clauses }
    requires few { length code.now.ops < 2 ^ 32 }
    ensures turn { IfSome result (λ turn. IsTurn body.now.clauses place turn) }
    ensures none { IfNone result (IsNoTurn body.now.clauses place) }
{
    let _ = body;
    match turn_op(code, place) {
        None => None,
        Some(op) => Some(Turn {
            number: op.number,
            body: place + 1,
            end: op.end,
        }),
    }
}
