// The code of a clause's expressions.
ghost use Rattle.std.specs.Prelude.{◌≡◌, [], ◌∷◌, ◌++◌, drop, is_some, true, false, IfOk, OnOk};
ghost use Rattle.std.specs.Arc.{arc_value};
ghost use Rattle.std.specs.Bool.{OnFalse};
ghost use Rattle.std.specs.Option.{option_copied};
ghost use Rattle.rx_tree.specs.declared.expr.Expr.TheVariants.{Name as Variable};
ghost use Rattle.rx_eval.specs.Places.{trees_of};
ghost use Rattle.rx_flow.specs.Rules.{rule};
ghost use Rattle.rx_machine.specs.Arguments.{argument, default_if, defaults};
ghost use Rattle.rx_machine.specs.Clauses as spec;
ghost use Rattle.rx_machine.specs.Templates.{trees_from};
ghost use Rattle.rx_machine.specs.Values.{given_tree};
ghost use Rattle.rx_codes.specs.Codes.{done_by, trees_in};

use rx_clause_tree::{Clause, ClauseKind, Parameter, ParseFrom, Simple};
use rx_eval::{Body, Postfix, is_whole};
use rx_tree::{Expr, Name, OutOfMemory, Value};
use std::alloc::Global;
use std::sync::Arc;

// Appends an expression, of which a string may be wanted. No hole stands in an expression of a source: one that isn't whole is
// answered as want of memory.
fn append(code: &mut Postfix, expr: &Expr, string: bool) -> Result<(), OutOfMemory>
    ensures trees { OnOk result (trees_of code.new.instrs ≡ trees_of code.old.instrs ++ (expr.now, string) ∷ []) }
    ensures body { code.new.body ≡ code.old.body }
{
    if !is_whole(expr) {
        return Err(OutOfMemory);
    }
    code.postfix(expr, string)
}

// Appends an expression where there is one.
fn append_given(code: &mut Postfix, given: &Option<Expr>, string: bool) -> Result<(), OutOfMemory>
    ensures trees { OnOk result (trees_of code.new.instrs ≡ trees_of code.old.instrs ++ given_tree string given.now) }
    ensures body { code.new.body ≡ code.old.body }
{
    match given {
        None => Ok(()),
        Some(expr) => append(code, expr, string),
    }
}

// Appends a variable whose text is cut.
fn append_variable(alloc: Global, code: &mut Postfix, name: &Name) -> Result<(), OutOfMemory>
    ensures trees { OnOk result (trees_of code.new.instrs ≡ trees_of code.old.instrs ++ (Variable name.now, true) ∷ []) }
    ensures body { code.new.body ≡ code.old.body }
{
    let expr = Expr::Name(name.share(alloc)?);
    append(code, &expr, true)
}

// Appends what PARSE evaluates.
fn append_parse(alloc: Global, code: &mut Postfix, from: &ParseFrom) -> Result<(), OutOfMemory>
    ensures trees { OnOk result (trees_of code.new.instrs ≡ trees_of code.old.instrs ++ trees_from from.now) }
    ensures body { code.new.body ≡ code.old.body }
{
    match from {
        ParseFrom::Arg | ParseFrom::Pull | ParseFrom::LineIn => Ok(()),
        ParseFrom::Var(name) => append_variable(alloc, code, name),
        ParseFrom::Value(expr) => append(code, expr, true),
    }
}

// Whether an argument is given.
fn is_given(args: &[Option<Value>], place: usize) -> bool
    ensures { result ≡ is_some (argument (drop place args.now)) }
{
    match args.get(place) {
        Some(arg) => arg.is_some(),
        None => false,
    }
}

// Appends the default of a parameter, unless the argument at its place is given.
#[tactic(auto, using(crate::proofs::DefaultLemmas::none_given, crate::proofs::DefaultLemmas::one_given))]
fn append_default(
    code: &mut Postfix,
    parameter: &Parameter,
    args: &[Option<Value>],
    place: usize,
) -> Result<(), OutOfMemory>
    ensures trees { OnOk result
        (trees_of code.new.instrs ≡ trees_of code.old.instrs ++ default_if (argument (drop place args.now)) parameter.now.default) }
    ensures body { code.new.body ≡ code.old.body }
{
    if is_given(args, place) {
        return Ok(());
    }
    append_given(code, &parameter.default, false)
}

// Appends the defaults of the parameters that have no argument.
fn append_defaults(
    code: &mut Postfix,
    parameters: &[Parameter],
    args: &[Option<Value>],
) -> Result<(), OutOfMemory>
    ensures trees { OnOk result (trees_of code.new.instrs ≡ trees_of code.old.instrs ++ defaults parameters.now args.now) }
    ensures body { code.new.body ≡ code.old.body }
{
    for place in 0..parameters.len() {
        append_default(code, &parameters[place], args, place)?;
    }
    Ok(())
}

// Appends the expressions of a clause, where the frame has these arguments.
fn append_simple(
    alloc: Global,
    code: &mut Postfix,
    simple: &Simple,
    args: &[Option<Value>],
) -> Result<(), OutOfMemory>
    ensures trees { OnOk result (trees_of code.new.instrs ≡ trees_of code.old.instrs ++ spec.trees_of args.now simple.now) }
    ensures body { code.new.body ≡ code.old.body }
{
    match simple {
        Simple::Assign(_, expr) | Simple::Message(expr) => append(code, expr, false),
        Simple::Say(given) | Simple::Push(given) | Simple::Queue(given) => {
            append_given(code, given, true)
        }
        Simple::Return(given) => append_given(code, given, false),
        Simple::UseArg(_, parameters) => append_defaults(code, parameters.as_slice(), args),
        Simple::Parse(parse) => append_parse(alloc, code, &parse.from),
        _ => Ok(()),
    }
}

/// What a clause does that holds no other clause.
pub fn simple_of(clause: &Clause) -> Option<&Simple>
    ensures { option_copied result ≡ done_by (rule clause.now) }
{
    match &clause.kind {
        ClauseKind::Simple(simple) => Some(simple),
        _ => None,
    }
}

/// The code of a clause of this body, where the frame has these arguments. A clause that holds others has code without trees.
pub fn clause_code(
    alloc: Global,
    body: &Arc<Body>,
    clause: &Clause,
    args: &[Option<Value>],
) -> Result<Arc<Postfix>, OutOfMemory>
    ensures body { IfOk result (λ code. (arc_value code).body ≡ arc_value body.now) }
    ensures trees { IfOk result (λ code. trees_of (arc_value code).instrs ≡ trees_in args.now clause.now) }
{
    let body = Arc::try_clone(body)?;
    let mut code = Postfix::new(alloc, body);
    if let Some(simple) = simple_of(clause) {
        append_simple(alloc, &mut code, simple, args)?;
    }
    Ok(Arc::new(alloc, code)?)
}

/// Whether the expressions of a clause depend on these arguments.
pub fn needs_arguments(clause: &Clause, args: &[Option<Value>]) -> bool
    ensures { OnFalse result (trees_in args.now clause.now ≡ trees_in [] clause.now) }
{
    match simple_of(clause) {
        Some(Simple::UseArg(_, _)) => !args.is_empty(),
        _ => false,
    }
}
