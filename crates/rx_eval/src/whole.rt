// Whether a hole stands in an expression.
ghost use Rattle.std.specs.Prelude.{◌≡◌};
ghost use Rattle.rx_eval.specs.Whole as spec;

use rx_tree::{Expr, Oper, SendPart};

#[cycle(whole)]
#[tactic(auto, using(crate::proofs::Built::wholes))]
fn are_terms_whole(terms: &[(Oper, Expr)]) -> bool
    ensures { result ≡ spec.terms_whole terms.now }
{
    for (_, term) in terms {
        if !is_whole(term) {
            return false;
        }
    }
    true
}

#[cycle(whole)]
#[tactic(auto, using(crate::proofs::Built::wholes))]
fn are_args_whole(args: &[Option<Expr>]) -> bool
    ensures { result ≡ spec.args_whole args.now }
{
    for arg in args {
        if let Some(arg) = arg {
            if !is_whole(arg) {
                return false;
            }
        }
    }
    true
}

#[cycle(whole)]
#[tactic(auto, using(crate::proofs::Built::wholes))]
fn are_parts_whole(parts: &[SendPart]) -> bool
    ensures { result ≡ spec.parts_whole parts.now }
{
    for part in parts {
        if !are_args_whole(part.args.as_slice()) {
            return false;
        }
    }
    true
}

/// Whether no hole stands in an expression. That holds of each expression of a source.
#[cycle(whole)]
#[tactic(auto, using(crate::proofs::Built::wholes))]
pub fn is_whole(expr: &Expr) -> bool
    ensures whole { result ≡ spec.is_whole expr.now }
{
    match expr {
        Expr::Const(_) | Expr::Name(_) | Expr::Environment(_) => true,
        Expr::Prefix(_, term) => is_whole(term.get()),
        Expr::Chain(first, terms) => is_whole(first.get()) && are_terms_whole(terms.as_slice()),
        Expr::Group(inner) => is_whole(inner.get()),
        Expr::Function(_, _, args) => are_args_whole(args.as_slice()),
        Expr::Sends(receiver, parts) => {
            is_whole(receiver.get()) && are_parts_whole(parts.as_slice())
        }
        Expr::Hole => false,
    }
}
