// How deep the brackets of an expression stand in one another.
ghost use Rattle.std.specs.Prelude.{◌≡◌, min};
ghost use Rattle.rx_tree.specs.Nesting as spec;
ghost use Rattle.rx_tree.specs.declared.expr.SendPart.{out-SendPart};

use crate::expr::{Expr, SendPart};
use crate::token::Oper;

fn has_brackets(part: &SendPart) -> bool
    ensures { result ≡ spec.has_brackets (out-SendPart part.now) }
{
    part.bracket || !part.args.is_empty()
}

#[cycle(nesting)]
#[tactic(auto, using(crate::proofs::NestingLemmas::nests))]
fn nesting_of_terms(terms: &[(Oper, Expr)]) -> u32
    ensures { result ≡ min (spec.nesting_of_terms terms.now) u32.MAX }
{
    let mut deepest = 0;
    for (_, term) in terms {
        deepest = deepest.max(nesting_of(term));
    }
    deepest
}

#[cycle(nesting)]
#[tactic(auto, using(crate::proofs::NestingLemmas::nests))]
fn nesting_of_args(args: &[Option<Expr>]) -> u32
    ensures { result ≡ min (spec.nesting_of_args args.now) u32.MAX }
{
    let mut deepest = 0;
    for arg in args {
        if let Some(arg) = arg {
            deepest = deepest.max(nesting_of(arg));
        }
    }
    deepest
}

#[cycle(nesting)]
#[tactic(auto, using(crate::proofs::NestingLemmas::nests))]
fn nesting_of_parts(parts: &[SendPart]) -> u32
    ensures { result ≡ min (spec.nesting_of_parts parts.now) u32.MAX }
{
    let mut deepest = 0;
    for part in parts {
        deepest = deepest.max(nesting_of_part(part));
    }
    deepest
}

#[cycle(nesting)]
#[tactic(auto, using(crate::proofs::NestingLemmas::nests))]
fn nesting_of_part(part: &SendPart) -> u32
    ensures { result ≡ min (spec.nesting_of_part part.now) u32.MAX }
{
    if has_brackets(part) {
        nesting_of_args(part.args.as_slice()).saturating_add(1)
    } else {
        0
    }
}

#[cycle(nesting)]
#[tactic(auto, using(crate::proofs::NestingLemmas::nests))]
fn nesting_of(expr: &Expr) -> u32
    ensures { result ≡ min (spec.nesting expr.now) u32.MAX }
{
    match expr {
        Expr::Const(_) | Expr::Name(_) | Expr::Environment(_) | Expr::Hole => 0,
        Expr::Prefix(_, term) => nesting_of(term.get()),
        Expr::Chain(first, terms) => {
            nesting_of(first.get()).max(nesting_of_terms(terms.as_slice()))
        }
        Expr::Group(inner) => nesting_of(inner.get()).saturating_add(1),
        Expr::Function(_, _, args) => nesting_of_args(args.as_slice()).saturating_add(1),
        Expr::Sends(receiver, parts) => {
            nesting_of(receiver.get()).max(nesting_of_parts(parts.as_slice()))
        }
    }
}

impl Expr {
    /// How deep brackets stand in one another: the greatest number of groups and argument lists that one place is inside
    /// of. More than 4,294,967,295 count as so many.
    pub fn nesting(&self) -> u32
        ensures nesting { result ≡ min (spec.nesting self.now) u32.MAX }
    {
        nesting_of(self)
    }
}
