// The clauses that stand in bodies of methods alone: EXPOSE, GUARD, REPLY and FORWARD.
ghost use Rattle.std.specs.Prelude.{◌≡◌, is_some};
ghost use Rattle.rx_packages.specs.MethodClauses as spec;

use rx_clause_tree::{Clause, ClauseKind, Simple, When};
use sqlite_items::{Boxed, Items};

fn is_for_methods(simple: &Simple) -> bool
    ensures { result ≡ spec.is_for_methods simple.now }
{
    matches!(
        simple,
        Simple::Expose(_)
            | Simple::GuardOn(_)
            | Simple::GuardOff(_)
            | Simple::Reply(_)
            | Simple::Forward(_)
    )
}

#[cycle(method_clauses)]
#[tactic(auto, using(crate::proofs::MethodClauseLemmas::found))]
fn in_whens(whens: &[When]) -> Option<u32>
    ensures { is_some result ≡ spec.in_whens whens.now }
{
    for when in whens {
        let found = in_clause(&when.chosen);
        if found.is_some() {
            return found;
        }
    }
    None
}

#[cycle(method_clauses)]
#[tactic(auto, using(crate::proofs::MethodClauseLemmas::found))]
fn in_kind(kind: &ClauseKind, line: u32) -> Option<u32>
    ensures { is_some result ≡ spec.in_kind kind.now }
{
    match kind {
        ClauseKind::Simple(simple) if is_for_methods(simple) => Some(line),
        ClauseKind::Simple(_) => None,
        ClauseKind::If(_, chosen, None) => in_clause(chosen.get()),
        ClauseKind::If(_, chosen, Some(other)) => {
            let found = in_clause(chosen.get());
            if found.is_some() {
                return found;
            }
            in_clause(other.get())
        }
        ClauseKind::Select(whens, None) => in_whens(whens.as_slice()),
        ClauseKind::Select(whens, Some(others)) => {
            let found = in_whens(whens.as_slice());
            if found.is_some() {
                return found;
            }
            in_clauses(others.as_slice())
        }
        ClauseKind::Group(clauses) => in_clauses(clauses.as_slice()),
        ClauseKind::Loop(_, _, clauses) => in_clauses(clauses.as_slice()),
    }
}

#[cycle(method_clauses)]
#[tactic(auto, using(crate::proofs::MethodClauseLemmas::found))]
fn in_clause(clause: &Clause) -> Option<u32>
    ensures { is_some result ≡ spec.in_clause clause.now }
{
    in_kind(&clause.kind, clause.line)
}

/// The line of the first clause among these, and in them, that stands in bodies of methods alone.
#[cycle(method_clauses)]
#[tactic(auto, using(crate::proofs::MethodClauseLemmas::found))]
pub fn in_clauses(clauses: &[Clause]) -> Option<u32>
    ensures { is_some result ≡ spec.in_clauses clauses.now }
{
    for clause in clauses {
        let found = in_clause(clause);
        if found.is_some() {
            return found;
        }
    }
    None
}
