// DROP, USE, NUMERIC, GUARD, RAISE and TRACE, each behind its word.
ghost use Rattle.std.specs.Prelude.{◌≡◌};
ghost use Rattle.rx_exprs.specs.Reads.{Reads};
ghost use Rattle.rx_clause_tree.specs.Instructions as trees;
ghost use Rattle.rx_clauses.specs.Forms as forms;
ghost use Rattle.rx_clauses.specs.Plain as spec;

use crate::numbers::{NO_END, NO_NUMBER, NO_SETTING, NO_WORD};
use crate::parts::{given, group, last_expression, some_names};
use crate::tokens::{
    eat_comma, eat_end, eat_word, is_equal, is_word, symbol, to_end, to_end_by, variable,
};
use rx_clause_tree::{Parameter, Simple};
use rx_exprs::{Cursor, Refused, Stops, read_expr};
use rx_tree::{Expr, Name, TokenKind, TraceSetting, Value};
use sqlite_items::Items;
use std::alloc::Global;

/// DROP, behind its word.
pub(crate) fn drop_names(alloc: Global, tokens: &mut Cursor<'_>) -> Result<Simple, Refused>
    ensures { Reads (spec.drop_names tokens.old) result tokens.new }
{
    Ok(Simple::Drop(some_names(alloc, tokens)?))
}

// A variable of USE, behind it, with its default.
fn default_at(alloc: Global, tokens: &mut Cursor<'_>, name: Name) -> Result<Parameter, Refused>
    ensures { Reads (spec.default_at name tokens.old) result tokens.new }
{
    if let [token, behind @ ..] = tokens.rest() {
        if is_equal(&token.kind) {
            tokens.go_to(behind);
            let default = Some(read_expr(alloc, tokens, Stops::Nothing)?);
            return Ok(Parameter { name, default });
        }
    }
    Ok(Parameter {
        name,
        default: None,
    })
}

// A variable of USE, and its default.
fn parameter(alloc: Global, tokens: &mut Cursor<'_>) -> Result<Parameter, Refused>
    ensures { Reads (spec.parameter tokens.old) result tokens.new }
{
    let name = variable(alloc, tokens)?;
    default_at(alloc, tokens, name)
}

// Parameters with commas between them, and the end of the clause.
#[tactic(auto, using(crate::proofs::Lists::parameter_lists))]
fn parameters(alloc: Global, tokens: &mut Cursor<'_>) -> Result<Items<Parameter>, Refused>
    ensures { Reads (forms.separated_form 21 (λ ts. spec.parameter ts) tokens.old) result tokens.new }
{
    let mut found = Items::new(alloc);
    loop {
        let one = parameter(alloc, tokens)?;
        found.push(one)?;
        if !eat_comma(tokens) {
            return to_end_by(found, tokens, NO_END);
        }
    }
}

// USE, behind its word and STRICT.
#[tactic(auto, using(crate::proofs::Lists::parameters_is))]
fn use_args(alloc: Global, tokens: &mut Cursor<'_>, strict: bool) -> Result<Simple, Refused>
    ensures { Reads (spec.use_args strict tokens.old) result tokens.new }
{
    if !eat_word(tokens, b"ARG") {
        return Err(tokens.lack(NO_WORD));
    }
    Ok(Simple::UseArg(strict, parameters(alloc, tokens)?))
}

/// USE, behind its word.
pub(crate) fn use_instruction(alloc: Global, tokens: &mut Cursor<'_>) -> Result<Simple, Refused>
    ensures { Reads (spec.use_ tokens.old) result tokens.new }
{
    let strict = eat_word(tokens, b"STRICT");
    use_args(alloc, tokens, strict)
}

/// NUMERIC, behind its word.
pub(crate) fn digits(alloc: Global, tokens: &mut Cursor<'_>) -> Result<Simple, Refused>
    ensures { Reads (spec.digits tokens.old) result tokens.new }
{
    if !eat_word(tokens, b"DIGITS") {
        return Err(tokens.lack(NO_WORD));
    }
    Ok(Simple::Digits(given(alloc, tokens)?))
}

// `[WHEN e]`, and the end of the clause.
fn guard_test(alloc: Global, tokens: &mut Cursor<'_>) -> Result<Option<Expr>, Refused>
    ensures { Reads (spec.guard_test tokens.old) result tokens.new }
{
    if eat_end(tokens) {
        return Ok(None);
    }
    if !eat_word(tokens, b"WHEN") {
        return Err(tokens.refuse(NO_WORD));
    }
    Ok(Some(last_expression(alloc, tokens)?))
}

/// GUARD, behind its word.
pub(crate) fn guard(alloc: Global, tokens: &mut Cursor<'_>) -> Result<Simple, Refused>
    ensures { Reads (spec.guard tokens.old) result tokens.new }
{
    if eat_word(tokens, b"ON") {
        return Ok(Simple::GuardOn(guard_test(alloc, tokens)?));
    }
    if eat_word(tokens, b"OFF") {
        return Ok(Simple::GuardOff(guard_test(alloc, tokens)?));
    }
    Err(tokens.lack(NO_WORD))
}

// A constant, or an expression in parentheses.
fn error_number(alloc: Global, tokens: &mut Cursor<'_>) -> Result<Expr, Refused>
    ensures { Reads (spec.error_number tokens.old) result tokens.new }
{
    if let [token, behind @ ..] = tokens.rest() {
        if let TokenKind::Constant(text) = &token.kind {
            tokens.go_to(behind);
            return Ok(Expr::Const(Value::Str(text.share()?)));
        }
    }
    group(alloc, tokens, NO_NUMBER)
}

// An option of RAISE, where its word stands here.
fn raise_option(
    alloc: Global,
    tokens: &mut Cursor<'_>,
    word: &[u8],
) -> Result<Option<Expr>, Refused>
    ensures { Reads (spec.raise_option word.now tokens.old) result tokens.new }
{
    if !eat_word(tokens, word) {
        return Ok(None);
    }
    Ok(Some(read_expr(alloc, tokens, Stops::Raise)?))
}

// RAISE SYNTAX.
fn raise_syntax(alloc: Global, tokens: &mut Cursor<'_>) -> Result<Simple, Refused>
    ensures { Reads (spec.raise_syntax tokens.old) result tokens.new }
{
    let number = error_number(alloc, tokens)?;
    let text = raise_option(alloc, tokens, b"DESCRIPTION")?;
    to_end(Simple::RaiseSyntax(number, text), tokens)
}

// RAISE USER.
fn raise_user(alloc: Global, tokens: &mut Cursor<'_>) -> Result<Simple, Refused>
    ensures { Reads (spec.raise_user tokens.old) result tokens.new }
{
    if !eat_word(tokens, b"USER") {
        return Err(tokens.lack(NO_WORD));
    }
    let name = symbol(alloc, tokens)?;
    let text = raise_option(alloc, tokens, b"DESCRIPTION")?;
    let value = raise_option(alloc, tokens, b"RETURN")?;
    to_end(Simple::RaiseUser(name, text, value), tokens)
}

/// RAISE, behind its word.
pub(crate) fn raise(alloc: Global, tokens: &mut Cursor<'_>) -> Result<Simple, Refused>
    ensures { Reads (spec.raise tokens.old) result tokens.new }
{
    if eat_word(tokens, b"SYNTAX") {
        return raise_syntax(alloc, tokens);
    }
    raise_user(alloc, tokens)
}

// The setting that a token is, if it is one.
fn setting_of(kind: &TokenKind) -> Option<TraceSetting>
    ensures { result ≡ trees.setting_of kind.now }
{
    if is_word(b"A", kind) {
        Some(TraceSetting::All)
    } else if is_word(b"R", kind) {
        Some(TraceSetting::Results)
    } else if is_word(b"N", kind) {
        Some(TraceSetting::Normal)
    } else if is_word(b"O", kind) {
        Some(TraceSetting::Off)
    } else {
        None
    }
}

// Takes a setting.
fn setting(tokens: &mut Cursor<'_>) -> Result<TraceSetting, Refused>
    ensures { Reads (spec.setting_at tokens.old) result tokens.new }
{
    if let [token, behind @ ..] = tokens.rest() {
        if let Some(setting) = setting_of(&token.kind) {
            tokens.go_to(behind);
            return Ok(setting);
        }
    }
    Err(tokens.lack(NO_SETTING))
}

/// TRACE, behind its word.
pub(crate) fn trace(tokens: &mut Cursor<'_>) -> Result<Simple, Refused>
    ensures { Reads (spec.trace tokens.old) result tokens.new }
{
    let setting = setting(tokens)?;
    to_end(Simple::Trace(setting), tokens)
}
