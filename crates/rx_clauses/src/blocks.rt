// Clauses and blocks. Only blocks make the functions go deeper, four functions for each.
ghost use Rattle.std.specs.Prelude.{◌≡◌, ◌≤◌, OnOk};
ghost use Rattle.rx_exprs.specs.Reads.{Eats, Reads};
ghost use Rattle.rx_clause_tree.specs.declared.clause.ClauseKind.TheVariants as x;
ghost use Rattle.rx_clause_tree.specs.Clauses as trees;
ghost use Rattle.rx_clause_tree.specs.Loops.{behind_block};
ghost use Rattle.rx_clauses.specs.Forms as spec;
ghost use Rattle.rx_clauses.specs.Reader as reader;

use crate::assignments::{assignment, message, send_assign};
use crate::keyword::Keyword;
use crate::loops::{control_of, header, test};
use crate::names::is_symbol_of;
use crate::numbers::{
    INCOMPLETE, NO_END, NO_THEN, NO_WHEN, STRAY_END, STRAY_EXPOSE, STRAY_LABEL, STRAY_PROCEDURE,
    TOO_DEEP,
};
use crate::simple::read_simple;
use crate::start::{Start, start_of};
use crate::tokens::{
    eat_end, eat_then, eat_word, eat_word_and_end, go_on, line_of, sees_body_end, sees_word,
};
use rx_clause_tree::{Clause, ClauseKind, Simple, When};
use rx_exprs::{Cursor, Refused, Stops, read_expr};
use rx_tree::Name;
use sqlite_items::{Boxed, Items};
use std::alloc::Global;

/// A clause that holds no other, with its line.
pub(crate) fn simple_clause(line: u32, simple: Simple) -> Clause
    ensures { result ≡ trees.clause line (x.Simple simple) }
{
    Clause {
        line,
        kind: ClauseKind::Simple(simple),
    }
}

// Takes the variable that a loop runs by.
fn eat_control(tokens: &mut Cursor<'_>, control: &Option<Name>) -> bool
    ensures { Eats (spec.behind_variable control.now tokens.old) result tokens.old tokens.new }
{
    if let [token, behind @ ..] = tokens.rest() {
        if let Some(name) = control {
            if is_symbol_of(&token.kind, name) {
                tokens.go_to(behind);
                return true;
            }
        }
    }
    false
}

// Takes END, the variable that the loop runs by where it stands there, and the end of the clause.
fn eat_block_end(tokens: &mut Cursor<'_>, control: &Option<Name>) -> bool
    ensures { Eats (behind_block control.now tokens.old) result tokens.old tokens.new }
{
    let here = tokens.rest();
    if !eat_word(tokens, b"END") {
        return false;
    }
    if eat_end(tokens) {
        return true;
    }
    if !eat_control(tokens, control) {
        tokens.go_to(here);
        return false;
    }
    if !eat_end(tokens) {
        tokens.go_to(here);
        return false;
    }
    true
}

// The number of a block that doesn't end here.
fn unended(tokens: &Cursor<'_>, number: u8) -> u8
    ensures { result ≡ reader.unended number tokens.now }
{
    if sees_body_end(tokens) {
        INCOMPLETE
    } else if sees_word(tokens, b"END") {
        STRAY_END
    } else {
        number
    }
}

// The number of a SELECT without WHEN.
fn no_when(tokens: &Cursor<'_>) -> u8
    ensures { result ≡ reader.no_when tokens.now }
{
    if sees_body_end(tokens) {
        INCOMPLETE
    } else {
        NO_WHEN
    }
}

// Takes the innermost loop away.
fn leave_loop(loops: &mut Items<Option<Name>>)
    ensures { loops.new ≡ spec.without_last loops.old }
{
    loops.pop();
}

// The end of a block.
fn end_block(tokens: &mut Cursor<'_>, control: &Option<Name>, number: u8) -> Result<(), Refused>
    ensures { Reads (spec.block_end number control.now tokens.old) result tokens.new }
{
    if !eat_block_end(tokens, control) {
        return Err(tokens.lack(unended(tokens, number)));
    }
    Ok(())
}

/// A clause that may stand in others, inside these loops, the innermost last. So many blocks may stand inside one another
/// in it.
#[cycle(clause)]
#[tactic(auto, using(crate::proofs::Ways::clauses))]
pub(crate) fn clause(
    alloc: Global,
    tokens: &mut Cursor<'_>,
    loops: &mut Items<Option<Name>>,
    room: u8,
) -> Result<Clause, Refused>
    ensures reads { Reads (spec.clause_form loops.old room tokens.old) result tokens.new }
    ensures loops { OnOk result (loops.new ≡ loops.old) }
{
    let line = line_of(tokens);
    match start_of(alloc, tokens)? {
        Start::Assignment => Ok(simple_clause(line, assignment(alloc, tokens)?)),
        Start::Sending(receiver, part) => Ok(simple_clause(
            line,
            send_assign(alloc, tokens, receiver, part)?,
        )),
        Start::Label => Err(tokens.lack(STRAY_LABEL)),
        Start::Word(keyword) => {
            let kind = instruction(alloc, tokens, loops, room, keyword)?;
            Ok(Clause { line, kind })
        }
        Start::Other => {
            if sees_body_end(tokens) {
                return Err(tokens.lack(INCOMPLETE));
            }
            Ok(simple_clause(line, message(alloc, tokens)?))
        }
    }
}

// An instruction.
#[cycle(clause)]
#[tactic(auto, using(crate::proofs::Ways::instructions))]
fn instruction(
    alloc: Global,
    tokens: &mut Cursor<'_>,
    loops: &mut Items<Option<Name>>,
    room: u8,
    keyword: Keyword,
) -> Result<ClauseKind, Refused>
    ensures reads { Reads (spec.instruction_form loops.old room keyword tokens.old) result tokens.new }
    ensures loops { OnOk result (loops.new ≡ loops.old) }
{
    match keyword {
        Keyword::Other(word) => {
            go_on(tokens);
            let simple = read_simple(alloc, tokens, loops.as_slice(), word)?;
            Ok(ClauseKind::Simple(simple))
        }
        Keyword::Procedure => Err(tokens.lack(STRAY_PROCEDURE)),
        Keyword::Expose => Err(tokens.lack(STRAY_EXPOSE)),
        Keyword::If | Keyword::Select | Keyword::Do | Keyword::Loop => {
            if room == 0 {
                return Err(tokens.lack(TOO_DEEP));
            }
            go_on(tokens);
            block(alloc, tokens, loops, room - 1, keyword)
        }
    }
}

// IF, SELECT, DO or LOOP behind its word. So many blocks may stand inside one another in its clauses.
#[cycle(clause)]
fn block(
    alloc: Global,
    tokens: &mut Cursor<'_>,
    loops: &mut Items<Option<Name>>,
    room: u8,
    keyword: Keyword,
) -> Result<ClauseKind, Refused>
    ensures reads { Reads (spec.block_form loops.old room keyword tokens.old) result tokens.new }
    ensures loops { OnOk result (loops.new ≡ loops.old) }
{
    match keyword {
        Keyword::If => choice(alloc, tokens, loops, room),
        Keyword::Select => select(alloc, tokens, loops, room),
        Keyword::Do if eat_end(tokens) => group(alloc, tokens, loops, room),
        _ => repetition(alloc, tokens, loops, room),
    }
}

// IF, behind its word.
#[cycle(clause)]
#[tactic(auto, using(crate::proofs::Ways::choices))]
fn choice(
    alloc: Global,
    tokens: &mut Cursor<'_>,
    loops: &mut Items<Option<Name>>,
    room: u8,
) -> Result<ClauseKind, Refused>
    ensures reads { Reads (spec.choice_form loops.old room tokens.old) result tokens.new }
    ensures loops { OnOk result (loops.new ≡ loops.old) }
{
    let test = read_expr(alloc, tokens, Stops::Then)?;
    if !eat_then(tokens) {
        return Err(tokens.refuse(NO_THEN));
    }
    let chosen = clause(alloc, tokens, loops, room)?;
    let chosen = Boxed::new(alloc, chosen)?;
    let other = else_clause(alloc, tokens, loops, room)?;
    Ok(ClauseKind::If(test, chosen, other))
}

// ELSE and its clause, where it stands here.
#[cycle(clause)]
#[tactic(auto, using(crate::proofs::Ways::elses))]
fn else_clause(
    alloc: Global,
    tokens: &mut Cursor<'_>,
    loops: &mut Items<Option<Name>>,
    room: u8,
) -> Result<Option<Boxed<Clause>>, Refused>
    ensures reads { Reads (spec.else_form loops.old room tokens.old) result tokens.new }
    ensures loops { OnOk result (loops.new ≡ loops.old) }
{
    if !eat_word_and_end(tokens, b"ELSE") {
        return Ok(None);
    }
    let other = clause(alloc, tokens, loops, room)?;
    Ok(Some(Boxed::new(alloc, other)?))
}

// SELECT, behind its word.
#[cycle(clause)]
#[tactic(auto, using(crate::proofs::Ways::selects))]
fn select(
    alloc: Global,
    tokens: &mut Cursor<'_>,
    loops: &mut Items<Option<Name>>,
    room: u8,
) -> Result<ClauseKind, Refused>
    ensures reads { Reads (spec.select_form loops.old room tokens.old) result tokens.new }
    ensures loops { OnOk result (loops.new ≡ loops.old) }
{
    if !eat_end(tokens) {
        return Err(tokens.refuse(NO_END));
    }
    let whens = whens(alloc, tokens, loops, room)?;
    if whens.is_empty() {
        return Err(tokens.lack(no_when(tokens)));
    }
    let other = otherwise(alloc, tokens, loops, room)?;
    end_block(tokens, &None, NO_WHEN)?;
    Ok(ClauseKind::Select(whens, other))
}

// WHENs side by side.
#[cycle(clause)]
#[tactic(auto, using(crate::proofs::Ways::when_lists))]
fn whens(
    alloc: Global,
    tokens: &mut Cursor<'_>,
    loops: &mut Items<Option<Name>>,
    room: u8,
) -> Result<Items<When>, Refused>
    ensures reads { Reads (spec.whens_form loops.old room tokens.old) result tokens.new }
    ensures loops { OnOk result (loops.new ≡ loops.old) }
{
    let mut found = Items::new(alloc);
    while eat_word(tokens, b"WHEN") {
        let when = when(alloc, tokens, loops, room)?;
        found.push(when)?;
    }
    Ok(found)
}

// WHEN, behind its word.
#[cycle(clause)]
#[tactic(auto, using(crate::proofs::Ways::whens))]
fn when(
    alloc: Global,
    tokens: &mut Cursor<'_>,
    loops: &mut Items<Option<Name>>,
    room: u8,
) -> Result<When, Refused>
    ensures reads { Reads (spec.when_form loops.old room tokens.old) result tokens.new }
    ensures loops { OnOk result (loops.new ≡ loops.old) }
{
    let test = read_expr(alloc, tokens, Stops::Then)?;
    if !eat_then(tokens) {
        return Err(tokens.refuse(NO_THEN));
    }
    let chosen = clause(alloc, tokens, loops, room)?;
    Ok(When { test, chosen })
}

// OTHERWISE and its clauses, where it stands here.
#[cycle(clause)]
#[tactic(auto, using(crate::proofs::Ways::others))]
fn otherwise(
    alloc: Global,
    tokens: &mut Cursor<'_>,
    loops: &mut Items<Option<Name>>,
    room: u8,
) -> Result<Option<Items<Clause>>, Refused>
    ensures reads { Reads (spec.otherwise_form loops.old room tokens.old) result tokens.new }
    ensures loops { OnOk result (loops.new ≡ loops.old) }
{
    if !eat_word_and_end(tokens, b"OTHERWISE") {
        return Ok(None);
    }
    Ok(Some(clauses(alloc, tokens, loops, room)?))
}

// The clauses of DO, behind its end.
#[cycle(clause)]
#[tactic(auto, using(crate::proofs::Ways::groups))]
fn group(
    alloc: Global,
    tokens: &mut Cursor<'_>,
    loops: &mut Items<Option<Name>>,
    room: u8,
) -> Result<ClauseKind, Refused>
    ensures reads { Reads (spec.group_form loops.old room tokens.old) result tokens.new }
    ensures loops { OnOk result (loops.new ≡ loops.old) }
{
    let clauses = clauses(alloc, tokens, loops, room)?;
    end_block(tokens, &None, STRAY_END)?;
    Ok(ClauseKind::Group(clauses))
}

// DO or LOOP that repeats its clauses, behind its word.
#[cycle(clause)]
#[tactic(auto, using(crate::proofs::Ways::repetitions))]
fn repetition(
    alloc: Global,
    tokens: &mut Cursor<'_>,
    loops: &mut Items<Option<Name>>,
    room: u8,
) -> Result<ClauseKind, Refused>
    ensures reads { Reads (spec.loop_form loops.old room tokens.old) result tokens.new }
    ensures loops { OnOk result (loops.new ≡ loops.old) }
{
    let header = header(alloc, tokens)?;
    let test = test(alloc, tokens)?;
    loops.push(control_of(alloc, &header)?)?;
    let clauses = clauses(alloc, tokens, loops, room)?;
    leave_loop(loops);
    let control = control_of(alloc, &header)?;
    end_block(tokens, &control, STRAY_END)?;
    Ok(ClauseKind::Loop(header, test, clauses))
}

// Clauses up to END.
#[cycle(clause)]
#[tactic(auto, using(crate::proofs::Ways::clause_lists))]
fn clauses(
    alloc: Global,
    tokens: &mut Cursor<'_>,
    loops: &mut Items<Option<Name>>,
    room: u8,
) -> Result<Items<Clause>, Refused>
    ensures reads { Reads (spec.clauses_form loops.old room tokens.old) result tokens.new }
    ensures loops { OnOk result (loops.new ≡ loops.old) }
{
    let mut found = Items::new(alloc);
    while !sees_word(tokens, b"END") {
        let one = clause(alloc, tokens, loops, room)?;
        found.push(one)?;
    }
    Ok(found)
}
