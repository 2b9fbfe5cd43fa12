// Assignments, assignments by a message, and message clauses.
ghost use Rattle.std.specs.Prelude.{◌≡◌, IfOk};
ghost use Rattle.rx_tree.specs.Expressions.{looseness};
ghost use Rattle.rx_exprs.specs.Reads.{Reads};
ghost use Rattle.rx_clause_tree.specs.Assignments as trees;
ghost use Rattle.rx_clause_tree.specs.ClauseWords as words;
ghost use Rattle.rx_clauses.specs.Starts as spec;

use crate::numbers::{NO_OPERAND, STRAY_END, STRAY_THEN, STRAY_WHEN};
use crate::parts::last_expression;
use crate::tokens::{is_equal, is_word, variable_of};
use rx_clause_tree::Simple;
use rx_exprs::{Cursor, Refused};
use rx_tree::{Expr, Name, Oper, SendPart, Token, TokenKind};
use sqlite_items::{Boxed, Items};
use std::alloc::{AllocError, Global};

/// The operator of an assignment that a token is, if it is one.
pub(crate) fn assigning_of(kind: &TokenKind) -> Option<Oper>
    ensures { result ≡ words.assigning_of kind.now }
{
    match kind {
        TokenKind::Operator(oper) => match *oper {
            Oper::Plus
            | Oper::Minus
            | Oper::Times
            | Oper::Divide
            | Oper::Quotient
            | Oper::Remainder
            | Oper::Concat
            | Oper::And
            | Oper::Or
            | Oper::ExclusiveOr
            | Oper::Power => Some(*oper),
            _ => None,
        },
        _ => None,
    }
}

// `x += 1` is the assignment of `x + (1)`.
fn with_operator(alloc: Global, name: Name, oper: Oper, expr: Expr) -> Result<Expr, AllocError>
    ensures { IfOk result (λ made. made ≡ trees.with_operator name oper expr) }
{
    let inner = Expr::Group(Boxed::new(alloc, expr)?);
    let mut terms = Items::new(alloc);
    terms.push((oper, inner))?;
    Ok(Expr::Chain(Boxed::new(alloc, Expr::Name(name))?, terms))
}

// `=` directly behind the operator of an assignment, and the expression.
fn assign_by(
    alloc: Global,
    tokens: &mut Cursor<'_>,
    name: Name,
    oper: Oper,
) -> Result<Simple, Refused>
    ensures { Reads (spec.assign_by name oper tokens.old) result tokens.new }
{
    let [equal, behind @ ..] = tokens.rest() else {
        return Err(tokens.refuse(NO_OPERAND));
    };
    if !is_equal(&equal.kind) || equal.blank {
        return Err(tokens.refuse(NO_OPERAND));
    }
    tokens.go_to(behind);
    let expr = last_expression(alloc, tokens)?;
    let target = name.share(alloc)?;
    Ok(Simple::Assign(target, with_operator(alloc, name, oper, expr)?))
}

// What stands behind the variable of an assignment.
fn assign_to(alloc: Global, tokens: &mut Cursor<'_>, name: Name) -> Result<Simple, Refused>
    ensures { Reads (spec.assign_to name tokens.old) result tokens.new }
{
    let [token, behind @ ..] = tokens.rest() else {
        return Err(tokens.refuse(NO_OPERAND));
    };
    if is_equal(&token.kind) {
        tokens.go_to(behind);
        return Ok(Simple::Assign(name, last_expression(alloc, tokens)?));
    }
    let Some(oper) = assigning_of(&token.kind) else {
        return Err(tokens.refuse(NO_OPERAND));
    };
    tokens.go_to(behind);
    assign_by(alloc, tokens, name, oper)
}

/// An assignment, from its variable on.
pub(crate) fn assignment(alloc: Global, tokens: &mut Cursor<'_>) -> Result<Simple, Refused>
    ensures { Reads (spec.assignment tokens.old) result tokens.new }
{
    let [token, behind @ ..] = tokens.rest() else {
        return Err(tokens.refuse(NO_OPERAND));
    };
    tokens.go_to(behind);
    let Some(name) = variable_of(alloc, &token.kind)? else {
        return Err(tokens.refuse(NO_OPERAND));
    };
    assign_to(alloc, tokens, name)
}

/// What an assignment by a message gives its value to, behind its `=`.
pub(crate) fn send_assign(
    alloc: Global,
    tokens: &mut Cursor<'_>,
    receiver: Expr,
    part: SendPart,
) -> Result<Simple, Refused>
    ensures { Reads (spec.send_assign (receiver, part) tokens.old) result tokens.new }
{
    let expr = last_expression(alloc, tokens)?;
    Ok(Simple::SendAssign(receiver, part, expr))
}

// The number that a clause is refused by which is no message term.
fn no_clause_word(tokens: &[Token]) -> u8
    ensures { result ≡ spec.no_clause_word tokens.now }
{
    let [token, ..] = tokens else {
        return NO_OPERAND;
    };
    if is_word(b"THEN", &token.kind) || is_word(b"ELSE", &token.kind) {
        STRAY_THEN
    } else if is_word(b"WHEN", &token.kind) || is_word(b"OTHERWISE", &token.kind) {
        STRAY_WHEN
    } else if is_word(b"END", &token.kind) {
        STRAY_END
    } else {
        NO_OPERAND
    }
}

// Whether an expression is a term with messages.
fn is_message_term(expr: &Expr) -> bool
    ensures { result ≡ spec.is_message_term expr.now }
{
    matches!(expr, Expr::Sends(_, _))
}

/// A message clause.
pub(crate) fn message(alloc: Global, tokens: &mut Cursor<'_>) -> Result<Simple, Refused>
    ensures { Reads (spec.message tokens.old) result tokens.new }
{
    let here = tokens.rest();
    let term = last_expression(alloc, tokens)?;
    if !is_message_term(&term) {
        tokens.go_to(here);
        return Err(tokens.lack(no_clause_word(here)));
    }
    Ok(Simple::Message(term))
}
