// Where directives and clauses may stand in a program, and which names of routines differ.
ghost use Rattle.std.specs.Prelude.{◌≡◌, [], ◌∷◌, ◌++◌, false, is_some, not, IfOk, OnOk};
ghost use Rattle.std.specs.Option.{option_copied};
ghost use Rattle.rx_directives.specs.Packages.{begins_class};
ghost use Rattle.rx_packages.specs.Conditions as spec;
ghost use Rattle.rx_packages.specs.Conditions.{keys};

use crate::method_clauses::in_clauses;
use rx_directives::{Directive, DirectiveKind};
use rx_tree::OutOfMemory;
use rx_vars::Table;
use std::alloc::Global;

fn begins_class(kind: &DirectiveKind) -> bool
    ensures { result ≡ begins_class kind.now }
{
    matches!(kind, DirectiveKind::Class(_))
}

fn needs_class(kind: &DirectiveKind) -> bool
    ensures { result ≡ spec.needs_class kind.now }
{
    matches!(
        kind,
        DirectiveKind::Method(..) | DirectiveKind::Attribute(..) | DirectiveKind::Constant(..)
    )
}

/// The line of the first directive that needs a class and has none before it.
#[tactic(auto, using(crate::proofs::ConditionLemmas::placed))]
pub fn stray_directive(directives: &[Directive]) -> Option<u32>
    ensures { is_some result ≡ not (spec.are_placed directives.now) }
{
    let mut rest = directives;
    while let [directive, behind @ ..] = rest {
        if begins_class(&directive.kind) {
            return None;
        }
        if needs_class(&directive.kind) {
            return Some(directive.line);
        }
        rest = behind;
    }
    None
}

// The line of the first clause in a routine that stands in methods alone.
fn clause_of_methods(kind: &DirectiveKind) -> Option<u32>
    ensures { is_some result ≡ not (spec.is_plain_kind kind.now) }
{
    match kind {
        DirectiveKind::Routine(_, body) => in_clauses(body.clauses.as_slice()),
        _ => None,
    }
}

/// The line of the first clause in the routines that stands in methods alone.
#[tactic(auto, using(crate::proofs::ConditionLemmas::plain))]
pub fn stray_clause(directives: &[Directive]) -> Option<u32>
    ensures { is_some result ≡ not (spec.are_plain directives.now) }
{
    let mut rest = directives;
    while let [directive, behind @ ..] = rest {
        let found = clause_of_methods(&directive.kind);
        if found.is_some() {
            return found;
        }
        rest = behind;
    }
    None
}

// The name of the routine that a directive makes, if it makes one.
fn routine_name(kind: &DirectiveKind) -> Option<&[u8]>
    ensures { option_copied result ≡ spec.routine_name kind.now }
{
    match kind {
        DirectiveKind::Routine(name, _) => Some(name.bytes()),
        _ => None,
    }
}

// Whether a name is among those of a table.
#[tactic(auto, using(crate::proofs::ConditionLemmas::noted))]
fn has(names: &Table<u32>, name: &[u8]) -> bool
    ensures { result ≡ spec.is_in (keys names.now) name.now }
{
    names.get(name).is_some()
}

// Puts a new name behind those of a table, or wants memory.
#[tactic(auto, using(crate::proofs::ConditionLemmas::noted))]
fn add(names: &mut Table<u32>, name: &[u8], line: u32) -> Result<(), OutOfMemory>
    requires new { spec.is_in (keys names.old) name.now ≡ false }
    ensures { OnOk result (keys names.new ≡ keys names.old ++ name.now ∷ []) }
{
    names.insert(name, line)
}

/// The line of the first directive of a routine whose name an earlier routine has, or want of memory.
#[tactic(auto, using(crate::proofs::ConditionLemmas::new_names))]
pub fn repeated_routine(alloc: Global, directives: &[Directive]) -> Result<Option<u32>, OutOfMemory>
    ensures { IfOk result (λ found. is_some found ≡ not (spec.are_new [] directives.now)) }
{
    let mut names = Table::new(alloc);
    let mut rest = directives;
    while let [directive, behind @ ..] = rest {
        if let Some(name) = routine_name(&directive.kind) {
            if has(&names, name) {
                return Ok(Some(directive.line));
            }
            add(&mut names, name, directive.line)?;
        }
        rest = behind;
    }
    Ok(None)
}
