// What a clause begins with.
ghost use Rattle.std.specs.Prelude.{◌≡◌, IfOk, is_some};
ghost use Rattle.rx_tree.specs.declared.expr.Expr.{out-Expr};
ghost use Rattle.rx_tree.specs.declared.expr.SendPart.{out-SendPart};
ghost use Rattle.rx_tree.specs.declared.stops.Stops.TheVariants.{Nothing};
ghost use Rattle.rx_exprs.specs.Forms.{level_form};
ghost use Rattle.rx_exprs.specs.Reads.{Takes};
ghost use Rattle.rx_clause_tree.specs.Assignments as trees;
ghost use Rattle.rx_clause_tree.specs.ClauseWords as words;
ghost use Rattle.rx_clauses.specs.Reader as reader;
ghost use Rattle.rx_clauses.specs.Starts as spec;

use crate::assignments::assigning_of;
use crate::keyword::{Keyword, keyword_of};
use crate::tokens::{is_equal, is_variable};
use rx_exprs::{Cursor, Refused, read_term};
use rx_tree::{Expr, OutOfMemory, SendPart, Token, TokenKind};
use sqlite_items::{Boxed, Items};
use std::alloc::Global;

/// What a clause begins with, which says what it is.
#[derive(Drop)]
pub enum Start {
    /// A variable, and `=` or an operator of assignments.
    Assignment,
    /// A receiver and its last message, which `=` stands behind.
    Sending(Expr, SendPart),
    /// A symbol and a colon.
    Label,
    /// The word of an instruction.
    Word(Keyword),
    /// Something else.
    Other,
}

// Whether a token is a symbol.
fn is_symbol(kind: &TokenKind) -> bool
    ensures { result ≡ is_some (words.symbol_of kind.now) }
{
    is_variable(kind) || matches!(kind, TokenKind::Constant(_) | TokenKind::Environment(_))
}

// An assignment: a variable, and `=`, or an operator with `=` directly behind it.
fn begins_assignment(tokens: &[Token]) -> bool
    ensures { result ≡ words.begins_assignment tokens.now }
{
    match tokens {
        [name, equal, behind @ ..] => {
            is_variable(&name.kind) && (is_equal(&equal.kind) || is_assigning(equal, behind))
        }
        _ => false,
    }
}

// An operator, and `=` directly behind it.
fn is_assigning(oper: &Token, behind: &[Token]) -> bool
    ensures { result ≡ words.is_assigning oper.now behind.now }
{
    match behind {
        [equal, ..] => {
            assigning_of(&oper.kind).is_some() && is_equal(&equal.kind) && !equal.blank
        }
        [] => false,
    }
}

// A label: a symbol, and a colon.
fn begins_label(tokens: &[Token]) -> bool
    ensures { result ≡ words.begins_label tokens.now }
{
    match tokens {
        [name, colon, ..] => is_symbol(&name.kind) && matches!(&colon.kind, TokenKind::Colon),
        _ => false,
    }
}

// Whether `=` behind a message makes an assignment of it: behind `[args]`, and behind `~name` without arguments and class.
fn is_assigned(part: &SendPart) -> bool
    ensures { result ≡ trees.is_assigned (out-SendPart part.now) }
{
    part.bracket || (part.above.is_none() && part.args.is_empty() && !part.back)
}

// The messages before the last, sent to the receiver.
fn with_messages(receiver: Boxed<Expr>, parts: Items<SendPart>) -> Expr
    ensures { result ≡ trees.with_messages receiver parts }
{
    if parts.is_empty() {
        return receiver.into_inner();
    }
    Expr::Sends(receiver, parts)
}

// The receiver and the last message of a term that may be assigned to.
fn split_term(term: Expr) -> Option<(Expr, SendPart)>
    ensures { spec.IsSplit (out-Expr term) result }
{
    let Expr::Sends(receiver, mut parts) = term else {
        return None;
    };
    let last = parts.pop()?;
    if !is_assigned(&last) {
        return None;
    }
    Some((with_messages(receiver, parts), last))
}

// The term that stands here, or none where what stands here is no term.
fn term_if_read(alloc: Global, tokens: &mut Cursor<'_>) -> Result<Option<Expr>, OutOfMemory>
    ensures { IfOk result (λ term. spec.IsRead (level_form Nothing 1 tokens.old) term tokens.new) }
{
    match read_term(alloc, tokens) {
        Ok(term) => Ok(Some(term)),
        Err(Refused::Bad(_)) => Ok(None),
        Err(Refused::OutOfMemory) => Err(OutOfMemory),
    }
}

// The receiver and the last message of a term, where it may be assigned to and `=` stands behind it; that is taken.
fn assigned_term(tokens: &mut Cursor<'_>, term: Expr) -> Option<(Expr, SendPart)>
    ensures { spec.IsTaken (spec.assigned_term term tokens.old) result tokens.new }
{
    if let [token, behind @ ..] = tokens.rest() {
        if is_equal(&token.kind) {
            tokens.go_to(behind);
            return split_term(term);
        }
    }
    None
}

// The receiver and the last message of an assignment by a message, whose `=` is taken.
#[tactic(auto, unfolding(crate::specs::Starts::assigned_at))]
fn assigned(alloc: Global, tokens: &mut Cursor<'_>) -> Result<Option<(Expr, SendPart)>, OutOfMemory>
    ensures { IfOk result (λ found. Takes (spec.assigned_at tokens.old) found tokens.old tokens.new) }
{
    let here = tokens.rest();
    let Some(term) = term_if_read(alloc, tokens)? else {
        tokens.go_to(here);
        return Ok(None);
    };
    let Some(found) = assigned_term(tokens, term) else {
        tokens.go_to(here);
        return Ok(None);
    };
    Ok(Some(found))
}

/// What a clause begins with. Of an assignment by a message its receiver, last message and `=` are taken, and else nothing.
#[tactic(auto, unfolding(crate::specs::Reader::start))]
pub(crate) fn start_of(alloc: Global, tokens: &mut Cursor<'_>) -> Result<Start, OutOfMemory>
    ensures { IfOk result (λ found. reader.start tokens.old ≡ (found, tokens.new)) }
{
    let here = tokens.rest();
    let [token, ..] = here else {
        return Ok(Start::Other);
    };
    if begins_assignment(here) {
        return Ok(Start::Assignment);
    }
    if let Some((receiver, part)) = assigned(alloc, tokens)? {
        return Ok(Start::Sending(receiver, part));
    }
    if begins_label(here) {
        return Ok(Start::Label);
    }
    match keyword_of(&token.kind) {
        Some(keyword) => Ok(Start::Word(keyword)),
        None => Ok(Start::Other),
    }
}
