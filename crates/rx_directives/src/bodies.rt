// The bodies that directives make.
ghost use Rattle.std.specs.Prelude.{◌≡◌, ◌++◌, reverse, IfOk, OnOk};
ghost use Rattle.rx_directives.specs.Packages as spec;

use crate::directive::{Access, Directive, DirectiveKind};
use rx_clause_tree::{Body, Clause, ClauseKind, Parameter, Simple};
use rx_tree::{Expr, Name, OutOfMemory, Text};
use sqlite_items::Items;
use std::alloc::Global;

fn on_line(line: u32, simple: Simple) -> Clause
    ensures { result ≡ spec.on_line line simple }
{
    Clause {
        line,
        kind: ClauseKind::Simple(simple),
    }
}

// EXPOSE of a variable.
fn expose(alloc: Global, name: &Name) -> Result<Simple, OutOfMemory>
    ensures { IfOk result (λ simple. simple ≡ spec.expose name.now) }
{
    let mut names = Items::new(alloc);
    names.push(name.share(alloc)?)?;
    Ok(Simple::Expose(names))
}

// The variable of a method that sets an attribute.
fn value_name(alloc: Global) -> Result<Name, OutOfMemory>
    ensures { IfOk result (λ name. name ≡ spec.value_name) }
{
    Ok(Name::Simple(Text::from_slice(alloc, b"VALUE")?))
}

// USE ARG of that variable.
fn use_value(alloc: Global) -> Result<Simple, OutOfMemory>
    ensures { IfOk result (λ simple. simple ≡ spec.use_value) }
{
    let mut parameters = Items::new(alloc);
    parameters.push(Parameter {
        name: value_name(alloc)?,
        default: None,
    })?;
    Ok(Simple::UseArg(false, parameters))
}

// The body of a method that gets an attribute.
fn getter(alloc: Global, line: u32, name: &Name) -> Result<Body, OutOfMemory>
    ensures { IfOk result (λ body. body ≡ spec.getter line name.now) }
{
    let mut clauses = Items::new(alloc);
    let first = expose(alloc, name)?;
    clauses.push(on_line(line, first))?;
    let value = Expr::Name(name.share(alloc)?);
    clauses.push(on_line(line, Simple::Return(Some(value))))?;
    Ok(Body { clauses })
}

// The body of a method that sets an attribute.
fn setter(alloc: Global, line: u32, name: &Name) -> Result<Body, OutOfMemory>
    ensures { IfOk result (λ body. body ≡ spec.setter line name.now) }
{
    let mut clauses = Items::new(alloc);
    let expose = expose(alloc, name)?;
    clauses.push(on_line(line, expose))?;
    let parameter = use_value(alloc)?;
    clauses.push(on_line(line, parameter))?;
    let target = name.share(alloc)?;
    let value = Expr::Name(value_name(alloc)?);
    clauses.push(on_line(line, Simple::Assign(target, value)))?;
    Ok(Body { clauses })
}

// The body of a constant's method.
fn giver(alloc: Global, line: u32, value: Expr) -> Result<Body, OutOfMemory>
    ensures { IfOk result (λ body. body ≡ spec.giver line value) }
{
    let mut clauses = Items::new(alloc);
    clauses.push(on_line(line, Simple::Return(Some(value))))?;
    Ok(Body { clauses })
}

// The body of an attribute's method: its clauses, or the generated body.
fn attribute_body(
    alloc: Global,
    line: u32,
    name: &Name,
    access: Access,
    body: Body,
) -> Result<Body, OutOfMemory>
    ensures { IfOk result (λ made. made ≡ spec.attribute_body line name.now access body) }
{
    if !body.clauses.is_empty() {
        return Ok(body);
    }
    match access {
        Access::Get => Ok(getter(alloc, line, name)?),
        Access::Set => Ok(setter(alloc, line, name)?),
    }
}

// Puts the bodies of an attribute behind others, the last one first.
fn push_attribute(
    alloc: Global,
    bodies: &mut Vec<Body>,
    line: u32,
    name: &Name,
    access: Option<Access>,
    body: Body,
) -> Result<(), OutOfMemory>
    ensures { OnOk result (bodies.new.items ≡ bodies.old.items ++ reverse (spec.attribute_bodies line name.now access body)) }
{
    match access {
        Some(access) => bodies.push(attribute_body(alloc, line, name, access, body)?)?,
        None => {
            bodies.push(setter(alloc, line, name)?)?;
            bodies.push(getter(alloc, line, name)?)?;
        }
    }
    Ok(())
}

// Puts the bodies that a directive makes behind others, the last one first.
fn push_made(alloc: Global, bodies: &mut Vec<Body>, directive: Directive) -> Result<(), OutOfMemory>
    ensures { OnOk result (bodies.new.items ≡ bodies.old.items ++ reverse (spec.made_by directive)) }
{
    let line = directive.line;
    match directive.into_kind() {
        DirectiveKind::Class(_head) => {}
        DirectiveKind::Method(_name, _options, body) => bodies.push(body)?,
        DirectiveKind::Routine(_name, body) => bodies.push(body)?,
        DirectiveKind::Attribute(named, options, body) => {
            push_attribute(alloc, bodies, line, &named.variable, options.access, body)?;
        }
        DirectiveKind::Constant(_name, value) => bodies.push(giver(alloc, line, value)?)?,
    }
    Ok(())
}

/// The bodies that directives make, in their order, or want of memory.
#[tactic(auto, using(crate::proofs::Making::body_lists))]
pub fn bodies_of(alloc: Global, directives: Items<Directive>) -> Result<Items<Body>, OutOfMemory>
    ensures { IfOk result (λ bodies. bodies ≡ spec.bodies_of directives) }
{
    let mut left = directives;
    let mut bodies = Vec::new(alloc);
    while let Some(directive) = left.pop() {
        push_made(alloc, &mut bodies, directive)?;
    }
    bodies.reverse();
    Ok(Items::from_vec(bodies))
}
