// Bodies: labels, EXPOSE and PROCEDURE where they may stand, and clauses.
ghost use Rattle.std.specs.Prelude.{◌≡◌};
ghost use Rattle.rx_exprs.specs.Reads.{Reads};
ghost use Rattle.rx_clause_tree.specs.declared.clause.Before.TheVariants.{Nothing};
ghost use Rattle.rx_clauses.specs.Forms.{body_form};
ghost use Rattle.rx_clauses.specs.Reader as spec;

use crate::blocks::{clause, simple_clause};
use crate::keyword::Keyword;
use crate::numbers::{NO_SYMBOL, STRAY_EXPOSE, STRAY_PROCEDURE};
use crate::parts::some_names;
use crate::start::{Start, start_of};
use crate::tokens::{eat_word, go_on, line_of, sees_body_end, skip_end, symbol_of, to_end};
use rx_clause_tree::{Before, Clause, Simple};
use rx_exprs::{Cursor, Refused};
use sqlite_items::Items;
use std::alloc::Global;

/// How many blocks may stand inside one another.
pub const MOST_BLOCKS: u8 = 250;

// A label, whose colon is the second token.
fn label(alloc: Global, tokens: &mut Cursor<'_>) -> Result<Simple, Refused>
    ensures { Reads (spec.label tokens.old) result tokens.new }
{
    let [token, ..] = tokens.rest() else {
        return Err(tokens.lack(NO_SYMBOL));
    };
    let name = symbol_of(alloc, &token.kind)?;
    go_on(tokens);
    go_on(tokens);
    let Some(name) = name else {
        return Err(tokens.lack(NO_SYMBOL));
    };
    skip_end(tokens);
    Ok(Simple::Label(name))
}

// EXPOSE, from its word on.
fn expose(alloc: Global, tokens: &mut Cursor<'_>, before: Before) -> Result<Simple, Refused>
    ensures { Reads (spec.expose before tokens.old (spec.behind tokens.old)) result tokens.new }
{
    match before {
        Before::Nothing => {
            go_on(tokens);
            Ok(Simple::Expose(some_names(alloc, tokens)?))
        }
        _ => Err(tokens.lack(STRAY_EXPOSE)),
    }
}

// `[EXPOSE names]`, and the end of the clause.
fn procedure_names(alloc: Global, tokens: &mut Cursor<'_>) -> Result<Simple, Refused>
    ensures { Reads (spec.procedure_names tokens.old) result tokens.new }
{
    if !eat_word(tokens, b"EXPOSE") {
        return to_end(Simple::Procedure(Items::new(alloc)), tokens);
    }
    Ok(Simple::Procedure(some_names(alloc, tokens)?))
}

// PROCEDURE, from its word on.
fn procedure(alloc: Global, tokens: &mut Cursor<'_>, before: Before) -> Result<Simple, Refused>
    ensures { Reads (spec.procedure before tokens.old (spec.behind tokens.old)) result tokens.new }
{
    match before {
        Before::Labels => {
            go_on(tokens);
            procedure_names(alloc, tokens)
        }
        _ => Err(tokens.lack(STRAY_PROCEDURE)),
    }
}

// A clause of a body, and what stands before the next one.
#[tactic(auto, using(crate::proofs::BodyForms::body_ways))]
fn body_clause(
    alloc: Global,
    tokens: &mut Cursor<'_>,
    before: Before,
) -> Result<(Clause, Before), Refused>
    ensures { Reads (spec.body_clause before tokens.old (spec.start tokens.old).0) result tokens.new }
{
    let line = line_of(tokens);
    let here = tokens.rest();
    let begun = start_of(alloc, tokens)?;
    tokens.go_to(here);
    match begun {
        Start::Label => {
            let label = label(alloc, tokens)?;
            Ok((simple_clause(line, label), Before::Labels))
        }
        Start::Word(Keyword::Expose) => {
            let expose = expose(alloc, tokens, before)?;
            Ok((simple_clause(line, expose), Before::Clauses))
        }
        Start::Word(Keyword::Procedure) => {
            let procedure = procedure(alloc, tokens, before)?;
            Ok((simple_clause(line, procedure), Before::Clauses))
        }
        _ => {
            let mut loops = Items::new(alloc);
            let one = clause(alloc, tokens, &mut loops, MOST_BLOCKS)?;
            Ok((one, Before::Clauses))
        }
    }
}

/// The clauses of a body, up to a directive or the end of the tokens.
#[tactic(auto, using(crate::proofs::BodyForms::bodies))]
pub(crate) fn body_clauses(alloc: Global, tokens: &mut Cursor<'_>) -> Result<Items<Clause>, Refused>
    ensures { Reads (body_form Nothing tokens.old) result tokens.new }
{
    let mut found = Items::new(alloc);
    let mut before = Before::Nothing;
    while !sees_body_end(tokens) {
        let (one, next) = body_clause(alloc, tokens, before)?;
        found.push(one)?;
        before = next;
    }
    Ok(found)
}
