// Expressions, names and arguments up to the end of a clause.
ghost use Rattle.std.specs.Prelude.{◌≡◌};
ghost use Rattle.rx_exprs.specs.Reads.{Reads};
ghost use Rattle.rx_clauses.specs.Forms as forms;
ghost use Rattle.rx_clauses.specs.Parts as spec;

use crate::numbers::{NO_END, NO_SYMBOL, UNCLOSED};
use crate::tokens::{eat_comma, eat_end, to_end, to_end_by, variable};
use rx_exprs::{Cursor, Refused, Stops, read_expr};
use rx_tree::{Expr, Name, TokenKind};
use sqlite_items::{Boxed, Items};
use std::alloc::Global;

/// An expression, and the end of the clause.
pub(crate) fn last_expression(alloc: Global, tokens: &mut Cursor<'_>) -> Result<Expr, Refused>
    ensures { Reads (spec.last_expression tokens.old) result tokens.new }
{
    let expr = read_expr(alloc, tokens, Stops::Nothing)?;
    to_end(expr, tokens)
}

/// An expression that may be omitted, and the end of the clause.
pub(crate) fn given(alloc: Global, tokens: &mut Cursor<'_>) -> Result<Option<Expr>, Refused>
    ensures { Reads (spec.given tokens.old) result tokens.new }
{
    if eat_end(tokens) {
        return Ok(None);
    }
    Ok(Some(last_expression(alloc, tokens)?))
}

// Variables side by side, and the end of the clause.
#[tactic(auto, using(crate::proofs::Lists::name_lists))]
fn names(alloc: Global, tokens: &mut Cursor<'_>) -> Result<Items<Name>, Refused>
    ensures { Reads (spec.names tokens.old) result tokens.new }
{
    let mut names = Items::new(alloc);
    while !eat_end(tokens) {
        let name = variable(alloc, tokens)?;
        names.push(name)?;
    }
    Ok(names)
}

/// Variables side by side, one at least, and the end of the clause.
pub(crate) fn some_names(alloc: Global, tokens: &mut Cursor<'_>) -> Result<Items<Name>, Refused>
    ensures { Reads (spec.some_names tokens.old) result tokens.new }
{
    let here = tokens.rest();
    if eat_end(tokens) {
        tokens.go_to(here);
        return Err(tokens.lack(NO_SYMBOL));
    }
    names(alloc, tokens)
}

// Whether an argument of CALL ends here.
fn sees_argument_end(tokens: &Cursor<'_>) -> bool
    ensures { result ≡ spec.ends_argument tokens.now }
{
    match tokens.rest() {
        [token, ..] => matches!(&token.kind, TokenKind::Comma | TokenKind::ClauseEnd),
        [] => false,
    }
}

// An argument of CALL, which may be omitted.
fn argument(alloc: Global, tokens: &mut Cursor<'_>) -> Result<Option<Expr>, Refused>
    ensures { Reads (spec.argument tokens.old) result tokens.new }
{
    if sees_argument_end(tokens) {
        return Ok(None);
    }
    Ok(Some(read_expr(alloc, tokens, Stops::Nothing)?))
}

// Arguments with commas between them, and the end of the clause.
#[tactic(auto, using(crate::proofs::Lists::argument_lists))]
fn listed(alloc: Global, tokens: &mut Cursor<'_>) -> Result<Items<Option<Expr>>, Refused>
    ensures { Reads (forms.separated_form 21 (λ ts. spec.argument ts) tokens.old) result tokens.new }
{
    let mut args = Items::new(alloc);
    loop {
        let arg = argument(alloc, tokens)?;
        args.push(arg)?;
        if !eat_comma(tokens) {
            return to_end_by(args, tokens, NO_END);
        }
    }
}

/// Arguments of CALL with commas between them, and the end of the clause.
#[tactic(auto, using(crate::proofs::Lists::arguments_is))]
pub(crate) fn arguments(
    alloc: Global,
    tokens: &mut Cursor<'_>,
) -> Result<Items<Option<Expr>>, Refused>
    ensures { Reads (spec.arguments tokens.old) result tokens.new }
{
    if eat_end(tokens) {
        return Ok(Items::new(alloc));
    }
    listed(alloc, tokens)
}

/// An expression in parentheses; another token is refused by this number.
pub(crate) fn group(alloc: Global, tokens: &mut Cursor<'_>, number: u8) -> Result<Expr, Refused>
    ensures { Reads (spec.group number tokens.old) result tokens.new }
{
    if !tokens.left_paren() {
        return Err(tokens.refuse(number));
    }
    let inner = read_expr(alloc, tokens, Stops::Nothing)?;
    if !tokens.right_paren() {
        return Err(tokens.refuse(UNCLOSED));
    }
    Ok(Expr::Group(Boxed::new(alloc, inner)?))
}
