// What DO and LOOP begin and end with, and LEAVE and ITERATE.
ghost use Rattle.std.specs.Prelude.{◌≡◌, [], IfOk};
ghost use Rattle.rx_exprs.specs.Reads.{Reads};
ghost use Rattle.rx_clause_tree.specs.Loops as trees;
ghost use Rattle.rx_clauses.specs.Forms as forms;
ghost use Rattle.rx_clauses.specs.Looping as spec;

use crate::numbers::BAD_HEADER;
use crate::tokens::{
    eat_end, eat_word, go_on, is_equal, is_variable, is_word, to_end, to_end_by, variable,
    variable_of,
};
use rx_clause_tree::{Bound, Header, Test};
use rx_exprs::{Cursor, Refused, Stops, read_expr};
use rx_tree::{Name, OutOfMemory, Token, TokenKind};
use sqlite_items::Items;
use std::alloc::Global;

// A bound, or none.
fn bound(alloc: Global, tokens: &mut Cursor<'_>) -> Result<Option<Bound>, Refused>
    ensures { Reads (spec.bound_at tokens.old) result tokens.new }
{
    if eat_word(tokens, b"TO") {
        return Ok(Some(Bound::To(read_expr(alloc, tokens, Stops::Loop)?)));
    }
    if eat_word(tokens, b"BY") {
        return Ok(Some(Bound::By(read_expr(alloc, tokens, Stops::Loop)?)));
    }
    if eat_word(tokens, b"FOR") {
        return Ok(Some(Bound::For(read_expr(alloc, tokens, Stops::Loop)?)));
    }
    Ok(None)
}

// Whether two bounds begin with the same word.
fn same_bound(a: &Bound, b: &Bound) -> bool
    ensures { result ≡ trees.same_bound a.now b.now }
{
    match (a, b) {
        (Bound::To(_), Bound::To(_)) => true,
        (Bound::By(_), Bound::By(_)) => true,
        (Bound::For(_), Bound::For(_)) => true,
        _ => false,
    }
}

// Whether one of some bounds begins with the same word.
fn is_bounded(one: &Bound, bounds: &[Bound]) -> bool
    ensures { result ≡ trees.is_bounded one.now bounds.now }
{
    let mut rest = bounds;
    while let [bound, behind @ ..] = rest {
        if same_bound(one, bound) {
            return true;
        }
        rest = behind;
    }
    false
}

// Bounds in any order, each word once. A repeated one is refused where it begins.
#[tactic(auto, using(crate::proofs::Lists::bound_lists))]
fn bounds(alloc: Global, tokens: &mut Cursor<'_>) -> Result<Items<Bound>, Refused>
    ensures { Reads (forms.bounds_form [] tokens.old) result tokens.new }
{
    let mut read = Items::new(alloc);
    loop {
        let here = tokens.rest();
        let Some(one) = bound(alloc, tokens)? else {
            return Ok(read);
        };
        if is_bounded(&one, read.as_slice()) {
            tokens.go_to(here);
            return Err(tokens.lack(BAD_HEADER));
        }
        read.push(one)?;
    }
}

// A variable that a loop runs by, and `=` or OVER.
fn begins_control(tokens: &[Token]) -> bool
    ensures { result ≡ trees.begins_control tokens.now }
{
    match tokens {
        [name, word, ..] => {
            is_variable(&name.kind) && (is_equal(&word.kind) || is_word(b"OVER", &word.kind))
        }
        _ => false,
    }
}

// What may stand in place of a header: a test, or the end of the clause.
fn begins_test(tokens: &[Token]) -> bool
    ensures { result ≡ trees.begins_test tokens.now }
{
    match tokens {
        [token, ..] => {
            is_word(b"WHILE", &token.kind)
                || is_word(b"UNTIL", &token.kind)
                || matches!(&token.kind, TokenKind::ClauseEnd)
        }
        [] => false,
    }
}

// `e [TO e] [BY e] [FOR e]`, behind the variable and its `=`.
#[tactic(auto, using(crate::proofs::Lists::bounds_is))]
fn counts(alloc: Global, tokens: &mut Cursor<'_>, name: Name) -> Result<Header, Refused>
    ensures { Reads (spec.counts name tokens.old) result tokens.new }
{
    let first = read_expr(alloc, tokens, Stops::Loop)?;
    let bounds = bounds(alloc, tokens)?;
    Ok(Header::Counts(name, first, bounds))
}

// A collection, behind the variable and OVER.
fn over(alloc: Global, tokens: &mut Cursor<'_>, name: Name) -> Result<Header, Refused>
    ensures { Reads (spec.over name tokens.old) result tokens.new }
{
    let expr = read_expr(alloc, tokens, Stops::Loop)?;
    Ok(Header::Over(name, expr))
}

// The header of a loop that a variable runs by.
fn controlled(alloc: Global, tokens: &mut Cursor<'_>) -> Result<Header, Refused>
    ensures { Reads (spec.controlled tokens.old) result tokens.new }
{
    let [token, word, behind @ ..] = tokens.rest() else {
        return Err(tokens.lack(BAD_HEADER));
    };
    go_on(tokens);
    let Some(name) = variable_of(alloc, &token.kind)? else {
        return Err(tokens.lack(BAD_HEADER));
    };
    tokens.go_to(behind);
    if is_equal(&word.kind) {
        counts(alloc, tokens, name)
    } else {
        over(alloc, tokens, name)
    }
}

/// The header of DO or LOOP.
pub(crate) fn header(alloc: Global, tokens: &mut Cursor<'_>) -> Result<Header, Refused>
    ensures { Reads (spec.header tokens.old) result tokens.new }
{
    if begins_control(tokens.rest()) {
        return controlled(alloc, tokens);
    }
    if eat_word(tokens, b"FOREVER") {
        return Ok(Header::Forever);
    }
    if begins_test(tokens.rest()) {
        return Ok(Header::Forever);
    }
    Ok(Header::Times(read_expr(alloc, tokens, Stops::Loop)?))
}

/// WHILE, UNTIL or neither, and the end of the clause.
pub(crate) fn test(alloc: Global, tokens: &mut Cursor<'_>) -> Result<Test, Refused>
    ensures { Reads (spec.test tokens.old) result tokens.new }
{
    if eat_end(tokens) {
        return Ok(Test::Never);
    }
    if eat_word(tokens, b"WHILE") {
        let expr = read_expr(alloc, tokens, Stops::Loop)?;
        return to_end_by(Test::While(expr), tokens, BAD_HEADER);
    }
    if eat_word(tokens, b"UNTIL") {
        let expr = read_expr(alloc, tokens, Stops::Loop)?;
        return to_end_by(Test::Until(expr), tokens, BAD_HEADER);
    }
    Err(tokens.refuse(BAD_HEADER))
}

/// A variable that may be omitted, and the end of the clause.
pub(crate) fn loop_name(alloc: Global, tokens: &mut Cursor<'_>) -> Result<Option<Name>, Refused>
    ensures { Reads (spec.loop_name tokens.old) result tokens.new }
{
    if eat_end(tokens) {
        return Ok(None);
    }
    let name = variable(alloc, tokens)?;
    to_end(Some(name), tokens)
}

/// The variable that a loop runs by.
pub(crate) fn control_of(alloc: Global, header: &Header) -> Result<Option<Name>, OutOfMemory>
    ensures { IfOk result (λ name. name ≡ trees.control_of header.now) }
{
    match header {
        Header::Counts(name, _, _) | Header::Over(name, _) => Ok(Some(name.share(alloc)?)),
        _ => Ok(None),
    }
}
