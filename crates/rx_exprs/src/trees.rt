// Trees of what was read.
ghost use Rattle.std.specs.Prelude.{◌≡◌, IfOk};
ghost use Rattle.rx_exprs.specs.Reader.{with_parts, with_signs, with_terms};

use rx_tree::{Expr, Oper, SendPart};
use sqlite_items::{Boxed, Items};
use std::alloc::{AllocError, Global};

/// An operand, with the operators of a level and the operands behind it.
pub fn make_chain(
    alloc: Global,
    first: Expr,
    terms: Items<(Oper, Expr)>,
) -> Result<Expr, AllocError>
    ensures { IfOk result (λ expr. expr ≡ with_terms first terms) }
{
    if terms.is_empty() {
        return Ok(first);
    }
    Ok(Expr::Chain(Boxed::new(alloc, first)?, terms))
}

/// A term, with the prefix operators before it.
pub fn make_prefix(alloc: Global, opers: Items<Oper>, term: Expr) -> Result<Expr, AllocError>
    ensures { IfOk result (λ expr. expr ≡ with_signs opers term) }
{
    if opers.is_empty() {
        return Ok(term);
    }
    Ok(Expr::Prefix(opers, Boxed::new(alloc, term)?))
}

/// A term, with the messages behind it.
pub fn make_sends(alloc: Global, receiver: Expr, parts: Items<SendPart>) -> Result<Expr, AllocError>
    ensures { IfOk result (λ expr. expr ≡ with_parts receiver parts) }
{
    if parts.is_empty() {
        return Ok(receiver);
    }
    Ok(Expr::Sends(Boxed::new(alloc, receiver)?, parts))
}
