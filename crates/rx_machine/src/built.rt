// The part of the language that runs.
ghost use Rattle.std.specs.Prelude.{◌≡◌};
ghost use Rattle.rx_machine.specs.Built as spec;

use rx_clause_tree::{Body, Clause, ClauseKind, Package, Parameter, ParseFrom, Simple};
use rx_tree::{Expr, Oper, SendPart};

#[cycle(runs)]
#[tactic(auto, using(crate::proofs::BuiltLemmas::runs))]
fn terms_run(terms: &[(Oper, Expr)]) -> bool
    ensures { result ≡ spec.terms_run terms.now }
{
    for (_, term) in terms {
        if !expr_runs(term) {
            return false;
        }
    }
    true
}

#[cycle(runs)]
#[tactic(auto, using(crate::proofs::BuiltLemmas::runs))]
fn args_run(args: &[Option<Expr>]) -> bool
    ensures { result ≡ spec.args_run args.now }
{
    for arg in args {
        if let Some(arg) = arg {
            if !expr_runs(arg) {
                return false;
            }
        }
    }
    true
}

#[cycle(runs)]
#[tactic(auto, using(crate::proofs::BuiltLemmas::runs))]
fn parts_run(parts: &[SendPart]) -> bool
    ensures { result ≡ spec.parts_run parts.now }
{
    for part in parts {
        if !args_run(part.args.as_slice()) {
            return false;
        }
    }
    true
}

// Whether an expression runs: no function is called in it.
#[cycle(runs)]
#[tactic(auto, using(crate::proofs::BuiltLemmas::runs))]
fn expr_runs(expr: &Expr) -> bool
    ensures { result ≡ spec.expr_runs expr.now }
{
    match expr {
        Expr::Const(_) | Expr::Name(_) | Expr::Environment(_) | Expr::Hole => true,
        Expr::Prefix(_, term) => expr_runs(term.get()),
        Expr::Chain(first, terms) => expr_runs(first.get()) && terms_run(terms.as_slice()),
        Expr::Group(inner) => expr_runs(inner.get()),
        Expr::Function(_, _, _) => false,
        Expr::Sends(receiver, parts) => expr_runs(receiver.get()) && parts_run(parts.as_slice()),
    }
}

fn given_runs(given: &Option<Expr>) -> bool
    ensures { result ≡ spec.given_runs given.now }
{
    match given {
        None => true,
        Some(expr) => expr_runs(expr),
    }
}

fn defaults_run(parameters: &[Parameter]) -> bool
    ensures { result ≡ spec.defaults_run parameters.now }
{
    for parameter in parameters {
        if !given_runs(&parameter.default) {
            return false;
        }
    }
    true
}

fn origin_runs(from: &ParseFrom) -> bool
    ensures { result ≡ spec.origin_runs from.now }
{
    match from {
        ParseFrom::Value(expr) => expr_runs(expr),
        ParseFrom::Arg | ParseFrom::Pull | ParseFrom::LineIn | ParseFrom::Var(_) => true,
    }
}

fn simple_runs(simple: &Simple) -> bool
    ensures { result ≡ spec.simple_runs simple.now }
{
    match simple {
        Simple::Assign(_, expr) | Simple::Message(expr) => expr_runs(expr),
        Simple::Say(given) | Simple::Return(given) | Simple::Push(given) | Simple::Queue(given) =>
            given_runs(given),
        Simple::UseArg(_, parameters) => defaults_run(parameters.as_slice()),
        Simple::Parse(parse) => origin_runs(&parse.from),
        Simple::Expose(_) | Simple::Drop(_) | Simple::Nop => true,
        _ => false,
    }
}

#[tactic(auto, using(crate::proofs::BuiltLemmas::kinds))]
fn clause_runs(clause: &Clause) -> bool
    ensures { result ≡ spec.clause_runs clause.now }
{
    match &clause.kind {
        ClauseKind::Simple(simple) => simple_runs(simple),
        ClauseKind::If(_, _, _) => false,
        ClauseKind::Select(_, _) => false,
        ClauseKind::Group(_) => false,
        ClauseKind::Loop(_, _, _) => false,
    }
}

// The line of the first of these clauses that doesn't run.
fn unbuilt_line(clauses: &[Clause]) -> Option<u32>
    ensures { result ≡ spec.unbuilt_line clauses.now }
{
    for clause in clauses {
        if !clause_runs(clause) {
            return Some(clause.line);
        }
    }
    None
}

fn unbuilt_in(bodies: &[Body]) -> Option<u32>
    ensures { result ≡ spec.unbuilt_in bodies.now }
{
    for body in bodies {
        let line = unbuilt_line(body.clauses.as_slice());
        if line.is_some() {
            return line;
        }
    }
    None
}

/// The line of the first clause of a program that doesn't run yet, if there is one. It takes no memory.
pub fn first_unbuilt(program: &Package) -> Option<u32>
    ensures line { result ≡ spec.first_unbuilt program.now }
{
    let line = unbuilt_line(program.main.clauses.as_slice());
    if line.is_some() {
        return line;
    }
    unbuilt_in(program.bodies.as_slice())
}
