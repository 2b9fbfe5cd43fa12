// CALL and SIGNAL.
ghost use Rattle.std.specs.Prelude.{◌≡◌, IfOk};
ghost use Rattle.rx_exprs.specs.Reads.{Reads};
ghost use Rattle.rx_clause_tree.specs.Instructions as trees;
ghost use Rattle.rx_clauses.specs.Plain as spec;

use crate::numbers::{NO_END, NO_NAME, NO_SYMBOL, NO_WORD};
use crate::parts::arguments;
use crate::tokens::{eat_end, eat_word, is_word, symbol, to_end};
use rx_clause_tree::{Routine, Simple, Trap};
use rx_exprs::{Cursor, Refused, name_of};
use rx_tree::{Condition, OutOfMemory, Text, TokenKind};
use std::alloc::Global;

// USER and a symbol.
fn user_condition(alloc: Global, tokens: &mut Cursor<'_>) -> Result<Condition, Refused>
    ensures { Reads (spec.user_condition tokens.old) result tokens.new }
{
    if !eat_word(tokens, b"USER") {
        return Err(tokens.lack(NO_WORD));
    }
    Ok(Condition::User(symbol(alloc, tokens)?))
}

fn condition(alloc: Global, tokens: &mut Cursor<'_>) -> Result<Condition, Refused>
    ensures { Reads (spec.condition tokens.old) result tokens.new }
{
    if eat_word(tokens, b"SYNTAX") {
        return Ok(Condition::Syntax);
    }
    if eat_word(tokens, b"NOVALUE") {
        return Ok(Condition::NoValue);
    }
    if eat_word(tokens, b"NOMETHOD") {
        return Ok(Condition::NoMethod);
    }
    user_condition(alloc, tokens)
}

// The label of a trap without NAME.
fn label_of(alloc: Global, condition: &Condition) -> Result<Text, OutOfMemory>
    ensures { IfOk result (λ label. label ≡ trees.label_of condition.now) }
{
    match condition {
        Condition::Syntax => Text::from_slice(alloc, b"SYNTAX"),
        Condition::NoValue => Text::from_slice(alloc, b"NOVALUE"),
        Condition::NoMethod => Text::from_slice(alloc, b"NOMETHOD"),
        Condition::User(name) => name.share(),
    }
}

// `[NAME label]`, and the end of the clause.
fn trap_label(
    alloc: Global,
    tokens: &mut Cursor<'_>,
    condition: &Condition,
) -> Result<Text, Refused>
    ensures { Reads (spec.trap_label condition.now tokens.old) result tokens.new }
{
    if eat_end(tokens) {
        return Ok(label_of(alloc, condition)?);
    }
    if !eat_word(tokens, b"NAME") {
        return Err(tokens.refuse(NO_END));
    }
    let label = symbol(alloc, tokens)?;
    to_end(label, tokens)
}

// CALL ON.
fn call_on(alloc: Global, tokens: &mut Cursor<'_>) -> Result<Simple, Refused>
    ensures { Reads (spec.call_on tokens.old) result tokens.new }
{
    let condition = user_condition(alloc, tokens)?;
    let label = trap_label(alloc, tokens, &condition)?;
    Ok(Simple::CallOn(Trap { condition, label }))
}

// CALL OFF.
fn call_off(alloc: Global, tokens: &mut Cursor<'_>) -> Result<Simple, Refused>
    ensures { Reads (spec.call_off tokens.old) result tokens.new }
{
    let condition = user_condition(alloc, tokens)?;
    to_end(Simple::CallOff(condition), tokens)
}

// A routine's name and its arguments.
fn call_named(alloc: Global, tokens: &mut Cursor<'_>) -> Result<Simple, Refused>
    ensures { Reads (spec.call_routine tokens.old) result tokens.new }
{
    let [token, behind @ ..] = tokens.rest() else {
        return Err(tokens.lack(NO_NAME));
    };
    let Some(name) = name_of(alloc, &token.kind)? else {
        return Err(tokens.lack(NO_NAME));
    };
    let is_string = matches!(&token.kind, TokenKind::Quoted(_));
    tokens.go_to(behind);
    let args = arguments(alloc, tokens)?;
    Ok(Simple::Call(Routine {
        name,
        is_string,
        args,
    }))
}

/// CALL, behind its word.
pub(crate) fn call(alloc: Global, tokens: &mut Cursor<'_>) -> Result<Simple, Refused>
    ensures { Reads (spec.call tokens.old) result tokens.new }
{
    let [token, behind @ ..] = tokens.rest() else {
        return Err(tokens.lack(NO_NAME));
    };
    if is_word(b"ON", &token.kind) {
        tokens.go_to(behind);
        return call_on(alloc, tokens);
    }
    if is_word(b"OFF", &token.kind) {
        tokens.go_to(behind);
        return call_off(alloc, tokens);
    }
    call_named(alloc, tokens)
}

// SIGNAL ON.
fn signal_on(alloc: Global, tokens: &mut Cursor<'_>) -> Result<Simple, Refused>
    ensures { Reads (spec.signal_on tokens.old) result tokens.new }
{
    let condition = condition(alloc, tokens)?;
    let label = trap_label(alloc, tokens, &condition)?;
    Ok(Simple::SignalOn(Trap { condition, label }))
}

// SIGNAL OFF.
fn signal_off(alloc: Global, tokens: &mut Cursor<'_>) -> Result<Simple, Refused>
    ensures { Reads (spec.signal_off tokens.old) result tokens.new }
{
    let condition = condition(alloc, tokens)?;
    to_end(Simple::SignalOff(condition), tokens)
}

// SIGNAL and a label.
fn signal_label(alloc: Global, tokens: &mut Cursor<'_>) -> Result<Simple, Refused>
    ensures { Reads (spec.signal_label tokens.old) result tokens.new }
{
    let label = symbol(alloc, tokens)?;
    to_end(Simple::Signal(label), tokens)
}

/// SIGNAL, behind its word.
pub(crate) fn signal(alloc: Global, tokens: &mut Cursor<'_>) -> Result<Simple, Refused>
    ensures { Reads (spec.signal tokens.old) result tokens.new }
{
    let [token, behind @ ..] = tokens.rest() else {
        return Err(tokens.lack(NO_SYMBOL));
    };
    if is_word(b"ON", &token.kind) {
        tokens.go_to(behind);
        return signal_on(alloc, tokens);
    }
    if is_word(b"OFF", &token.kind) {
        tokens.go_to(behind);
        return signal_off(alloc, tokens);
    }
    signal_label(alloc, tokens)
}
