// PARSE, ARG and PULL, each behind its word, and their templates.
ghost use Rattle.std.specs.Prelude.{◌≡◌};
ghost use Rattle.rx_exprs.specs.Reads.{Reads};
ghost use Rattle.rx_clause_tree.specs.Templates as trees;
ghost use Rattle.rx_clauses.specs.Forms as forms;
ghost use Rattle.rx_clauses.specs.Parsing as spec;

use crate::numbers::{BAD_TEMPLATE, NO_WORD};
use crate::tokens::{eat_comma, eat_word, to_end_by, variable};
use rx_clause_tree::{Distance, Parse, ParseFrom, Template, TemplatePart};
use rx_exprs::{Cursor, Refused, Stops, read_expr};
use rx_tree::{Name, Oper, Token, TokenKind};
use sqlite_items::Items;
use std::alloc::Global;

// A closing parenthesis behind a variable.
fn closing(tokens: &mut Cursor<'_>, name: Name) -> Result<Name, Refused>
    ensures { Reads (spec.closing name tokens.old) result tokens.new }
{
    if tokens.right_paren() {
        Ok(name)
    } else {
        Err(tokens.lack(BAD_TEMPLATE))
    }
}

// A variable and a closing parenthesis.
fn in_parentheses(alloc: Global, tokens: &mut Cursor<'_>) -> Result<Name, Refused>
    ensures { Reads (spec.in_parentheses tokens.old) result tokens.new }
{
    let name = variable(alloc, tokens)?;
    closing(tokens, name)
}

// How far: a number, or a variable in parentheses.
fn distance(alloc: Global, tokens: &mut Cursor<'_>) -> Result<Distance, Refused>
    ensures { Reads (spec.distance tokens.old) result tokens.new }
{
    let [token, behind @ ..] = tokens.rest() else {
        return Err(tokens.lack(BAD_TEMPLATE));
    };
    match &token.kind {
        TokenKind::Constant(text) => {
            tokens.go_to(behind);
            Ok(Distance::Number(text.share()?))
        }
        TokenKind::LeftParen => {
            tokens.go_to(behind);
            Ok(Distance::Value(in_parentheses(alloc, tokens)?))
        }
        _ => Err(tokens.lack(BAD_TEMPLATE)),
    }
}

// A part that begins with an operator, in front of these tokens. Another operator than these is refused where it stands.
fn by_operator<'a>(
    alloc: Global,
    tokens: &mut Cursor<'a>,
    oper: Oper,
    behind: &'a [Token],
) -> Result<TemplatePart, Refused>
    ensures { Reads (spec.by_operator oper tokens.old behind.now) result tokens.new }
{
    match oper {
        Oper::Equal => {
            tokens.go_to(behind);
            Ok(TemplatePart::At(distance(alloc, tokens)?))
        }
        Oper::Plus => {
            tokens.go_to(behind);
            Ok(TemplatePart::Forward(distance(alloc, tokens)?))
        }
        Oper::Minus => {
            tokens.go_to(behind);
            Ok(TemplatePart::Backward(distance(alloc, tokens)?))
        }
        _ => Err(tokens.lack(BAD_TEMPLATE)),
    }
}

// A part of a template.
fn part(alloc: Global, tokens: &mut Cursor<'_>) -> Result<TemplatePart, Refused>
    ensures { Reads (spec.part tokens.old) result tokens.new }
{
    let [token, behind @ ..] = tokens.rest() else {
        return Err(tokens.lack(BAD_TEMPLATE));
    };
    match &token.kind {
        TokenKind::Simple(_) | TokenKind::Stem(_) | TokenKind::Compound(..) => {
            Ok(TemplatePart::Target(variable(alloc, tokens)?))
        }
        TokenKind::Period => {
            tokens.go_to(behind);
            Ok(TemplatePart::Period)
        }
        TokenKind::Quoted(text) => {
            tokens.go_to(behind);
            Ok(TemplatePart::Literal(text.share()?))
        }
        TokenKind::Constant(text) => {
            tokens.go_to(behind);
            Ok(TemplatePart::At(Distance::Number(text.share()?)))
        }
        TokenKind::LeftParen => {
            tokens.go_to(behind);
            Ok(TemplatePart::Pattern(in_parentheses(alloc, tokens)?))
        }
        TokenKind::Operator(oper) => by_operator(alloc, tokens, *oper, behind),
        _ => Err(tokens.lack(BAD_TEMPLATE)),
    }
}

// Whether a template ends here.
fn sees_template_end(tokens: &Cursor<'_>) -> bool
    ensures { result ≡ spec.ends tokens.now }
{
    match tokens.rest() {
        [token, ..] => matches!(&token.kind, TokenKind::Comma | TokenKind::ClauseEnd),
        [] => false,
    }
}

// Parts side by side, up to a comma or the end of the clause.
#[tactic(auto, using(crate::proofs::Lists::part_lists))]
fn parts(alloc: Global, tokens: &mut Cursor<'_>) -> Result<Items<TemplatePart>, Refused>
    ensures { Reads (forms.parts_form tokens.old) result tokens.new }
{
    let mut parts = Items::new(alloc);
    while !sees_template_end(tokens) {
        let part = part(alloc, tokens)?;
        parts.push(part)?;
    }
    Ok(parts)
}

// Parts side by side, as a template.
#[tactic(auto, using(crate::proofs::Lists::parts_is))]
fn template(alloc: Global, tokens: &mut Cursor<'_>) -> Result<Template, Refused>
    ensures { Reads (spec.template_at tokens.old) result tokens.new }
{
    let parts = parts(alloc, tokens)?;
    Ok(Template { parts })
}

// Templates with commas between them, and the end of the clause.
#[tactic(auto, using(crate::proofs::Lists::template_lists))]
fn templates(alloc: Global, tokens: &mut Cursor<'_>) -> Result<Items<Template>, Refused>
    ensures { Reads (forms.separated_form 38 (λ ts. spec.template_at ts) tokens.old) result tokens.new }
{
    let mut found = Items::new(alloc);
    loop {
        let one = template(alloc, tokens)?;
        found.push(one)?;
        if !eat_comma(tokens) {
            return to_end_by(found, tokens, BAD_TEMPLATE);
        }
    }
}

// VALUE, behind its word.
fn from_value(alloc: Global, tokens: &mut Cursor<'_>) -> Result<ParseFrom, Refused>
    ensures { Reads (spec.from_value tokens.old) result tokens.new }
{
    let expr = read_expr(alloc, tokens, Stops::With)?;
    if !eat_word(tokens, b"WITH") {
        return Err(tokens.refuse(BAD_TEMPLATE));
    }
    Ok(ParseFrom::Value(expr))
}

// Where PARSE has its texts from.
fn parse_from(alloc: Global, tokens: &mut Cursor<'_>) -> Result<ParseFrom, Refused>
    ensures { Reads (spec.parse_from tokens.old) result tokens.new }
{
    if eat_word(tokens, b"ARG") {
        return Ok(ParseFrom::Arg);
    }
    if eat_word(tokens, b"PULL") {
        return Ok(ParseFrom::Pull);
    }
    if eat_word(tokens, b"LINEIN") {
        return Ok(ParseFrom::LineIn);
    }
    if eat_word(tokens, b"VAR") {
        return Ok(ParseFrom::Var(variable(alloc, tokens)?));
    }
    if eat_word(tokens, b"VALUE") {
        return from_value(alloc, tokens);
    }
    Err(tokens.lack(NO_WORD))
}

// Whether so many templates may stand: arguments have one each, and another text has one.
fn has_templates(from: &ParseFrom, templates: &[Template]) -> bool
    ensures { result ≡ trees.has_templates from.now templates.now }
{
    match from {
        ParseFrom::Arg => true,
        _ => matches!(templates, [_]),
    }
}

/// The templates of a text, and the end of the clause.
#[tactic(auto, using(crate::proofs::Lists::templates_is))]
pub(crate) fn parse_by(
    alloc: Global,
    tokens: &mut Cursor<'_>,
    upper: bool,
    from: ParseFrom,
) -> Result<Parse, Refused>
    ensures { Reads (spec.parse_by upper from tokens.old) result tokens.new }
{
    let here = tokens.rest();
    let templates = templates(alloc, tokens)?;
    if !has_templates(&from, templates.as_slice()) {
        tokens.go_to(here);
        return Err(tokens.lack(BAD_TEMPLATE));
    }
    Ok(Parse {
        upper,
        from,
        templates,
    })
}

/// PARSE, behind its word.
pub(crate) fn parse(alloc: Global, tokens: &mut Cursor<'_>) -> Result<Parse, Refused>
    ensures { Reads (spec.parse tokens.old) result tokens.new }
{
    let upper = eat_word(tokens, b"UPPER");
    let from = parse_from(alloc, tokens)?;
    parse_by(alloc, tokens, upper, from)
}
