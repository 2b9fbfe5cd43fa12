// Directives.
ghost use Rattle.std.specs.Prelude.{◌≡◌};
ghost use Rattle.rx_exprs.specs.Reads.{Reads};
ghost use Rattle.rx_directives.specs.Reader as spec;

use crate::directive::{Directive, DirectiveKind, Options};
use crate::heads::class_options;
use crate::names::{attribute_name, routine_name, title};
use crate::numbers::{NO_DIRECTIVE, NO_NAME, NO_OPTION};
use crate::options::{method_options, options};
use crate::words::{digits_of, sign_of, value_of};
use rx_clause_tree::Body;
use rx_clauses::{eat_end, eat_word, read_body, to_end};
use rx_exprs::{Cursor, Refused};
use rx_tree::{Expr, Oper, TokenKind, Value};
use sqlite_items::{Boxed, Items};
use std::alloc::Global;

// A class, behind its word.
fn class(alloc: Global, tokens: &mut Cursor<'_>) -> Result<DirectiveKind, Refused>
    ensures { Reads (spec.class tokens.old) result tokens.new }
{
    let name = title(alloc, tokens)?;
    let head = class_options(alloc, tokens, name)?;
    Ok(DirectiveKind::Class(head))
}

// A method, behind its word.
fn method(alloc: Global, tokens: &mut Cursor<'_>) -> Result<DirectiveKind, Refused>
    ensures { Reads (spec.method tokens.old) result tokens.new }
{
    let name = title(alloc, tokens)?;
    let options = method_options(tokens)?;
    let body = read_body(alloc, tokens)?;
    Ok(DirectiveKind::Method(name, options, body))
}

// The clauses of an attribute, which has none where neither GET nor SET is said.
fn attribute_body(alloc: Global, tokens: &mut Cursor<'_>, options: Options) -> Result<Body, Refused>
    ensures { Reads (spec.attribute_body options tokens.old) result tokens.new }
{
    let here = tokens.rest();
    let body = read_body(alloc, tokens)?;
    if options.access.is_none() && !body.clauses.is_empty() {
        tokens.go_to(here);
        return Err(tokens.lack(NO_DIRECTIVE));
    }
    Ok(body)
}

// An attribute, behind its word.
fn attribute(alloc: Global, tokens: &mut Cursor<'_>) -> Result<DirectiveKind, Refused>
    ensures { Reads (spec.attribute tokens.old) result tokens.new }
{
    let name = attribute_name(alloc, tokens)?;
    let options = options(tokens)?;
    let body = attribute_body(alloc, tokens, options)?;
    Ok(DirectiveKind::Attribute(name, options, body))
}

// The digits behind a sign.
fn digits(alloc: Global, tokens: &mut Cursor<'_>, sign: Oper) -> Result<Expr, Refused>
    ensures { Reads (spec.digits_at sign tokens.old) result tokens.new }
{
    let [token, behind @ ..] = tokens.rest() else {
        return Err(tokens.lack(NO_NAME));
    };
    let Some(digits) = digits_of(&token.kind)? else {
        return Err(tokens.lack(NO_NAME));
    };
    let mut signs = Items::new(alloc);
    signs.push(sign)?;
    let number = Boxed::new(alloc, Expr::Const(Value::Str(digits)))?;
    tokens.go_to(behind);
    Ok(Expr::Prefix(signs, number))
}

// The value of a constant.
fn value(alloc: Global, tokens: &mut Cursor<'_>) -> Result<Expr, Refused>
    ensures { Reads (spec.value tokens.old) result tokens.new }
{
    let [token, behind @ ..] = tokens.rest() else {
        return Err(tokens.lack(NO_NAME));
    };
    if let Some(sign) = sign_of(&token.kind) {
        tokens.go_to(behind);
        return digits(alloc, tokens, sign);
    }
    let Some(text) = value_of(&token.kind)? else {
        return Err(tokens.lack(NO_NAME));
    };
    tokens.go_to(behind);
    Ok(Expr::Const(Value::Str(text)))
}

// A constant, behind its word.
fn constant(alloc: Global, tokens: &mut Cursor<'_>) -> Result<DirectiveKind, Refused>
    ensures { Reads (spec.constant tokens.old) result tokens.new }
{
    let name = title(alloc, tokens)?;
    let value = value(alloc, tokens)?;
    to_end(DirectiveKind::Constant(name, value), tokens)
}

// The end of the clause.
fn option_end(tokens: &mut Cursor<'_>) -> Result<(), Refused>
    ensures { Reads (spec.option_end tokens.old) result tokens.new }
{
    if eat_end(tokens) {
        Ok(())
    } else {
        Err(tokens.lack(NO_OPTION))
    }
}

// `[PUBLIC]` and the end of the clause.
fn public_end(tokens: &mut Cursor<'_>) -> Result<(), Refused>
    ensures { Reads (spec.public_end tokens.old) result tokens.new }
{
    eat_word(tokens, b"PUBLIC");
    option_end(tokens)
}

// A routine, behind its word.
fn routine(alloc: Global, tokens: &mut Cursor<'_>) -> Result<DirectiveKind, Refused>
    ensures { Reads (spec.routine tokens.old) result tokens.new }
{
    let name = routine_name(alloc, tokens)?;
    public_end(tokens)?;
    let body = read_body(alloc, tokens)?;
    Ok(DirectiveKind::Routine(name, body))
}

// A directive, behind its two colons.
#[tactic(auto, unfolding(crate::specs::Reader::kind))]
fn kind(alloc: Global, tokens: &mut Cursor<'_>) -> Result<DirectiveKind, Refused>
    ensures { Reads (spec.kind tokens.old) result tokens.new }
{
    if eat_word(tokens, b"CLASS") {
        return class(alloc, tokens);
    }
    if eat_word(tokens, b"METHOD") {
        return method(alloc, tokens);
    }
    if eat_word(tokens, b"ATTRIBUTE") {
        return attribute(alloc, tokens);
    }
    if eat_word(tokens, b"CONSTANT") {
        return constant(alloc, tokens);
    }
    if eat_word(tokens, b"ROUTINE") {
        return routine(alloc, tokens);
    }
    Err(tokens.lack(NO_DIRECTIVE))
}

// A directive.
fn directive(alloc: Global, tokens: &mut Cursor<'_>) -> Result<Directive, Refused>
    ensures { Reads (spec.one_directive tokens.old) result tokens.new }
{
    let [token, behind @ ..] = tokens.rest() else {
        return Err(tokens.lack(NO_DIRECTIVE));
    };
    if !matches!(&token.kind, TokenKind::TwoColons) {
        return Err(tokens.lack(NO_DIRECTIVE));
    }
    let line = token.line;
    tokens.go_to(behind);
    let kind = kind(alloc, tokens)?;
    Ok(Directive { line, kind })
}

// Whether no token is left.
fn none_left(tokens: &Cursor<'_>) -> bool
    ensures { result ≡ spec.none_left tokens.now }
{
    tokens.rest().is_empty()
}

/// Directives, up to the end of the tokens.
#[tactic(auto, using(crate::proofs::Lists::directive_lists))]
pub fn directives(alloc: Global, tokens: &mut Cursor<'_>) -> Result<Items<Directive>, Refused>
    ensures { Reads (spec.directives_form tokens.old) result tokens.new }
{
    let mut found = Items::new(alloc);
    while !none_left(tokens) {
        let one = directive(alloc, tokens)?;
        found.push(one)?;
    }
    Ok(found)
}
