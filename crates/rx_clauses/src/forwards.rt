// FORWARD, behind its word.
ghost use Rattle.std.specs.Prelude.{◌≡◌};
ghost use Rattle.rx_exprs.specs.Reader.{lack};
ghost use Rattle.rx_exprs.specs.Reads.{Reads, fault_of};
ghost use Rattle.rx_clause_tree.specs.Forwards.{no_options};
ghost use Rattle.rx_clauses.specs.Forms as forms;
ghost use Rattle.rx_clauses.specs.Forwarding as spec;

use crate::numbers::{NO_NAME, NO_WORD};
use crate::parts::group;
use crate::tokens::{eat_end, eat_word, variable};
use rx_clause_tree::{Forward, Forwarded};
use rx_exprs::{Cursor, Refused, read_args};
use rx_tree::{Expr, Token, TokenKind, Value};
use sqlite_items::Items;
use std::alloc::Global;

// An operand of an option: a string, a variable, or an expression in parentheses.
fn operand(alloc: Global, tokens: &mut Cursor<'_>) -> Result<Expr, Refused>
    ensures { Reads (spec.operand tokens.old) result tokens.new }
{
    let [token, behind @ ..] = tokens.rest() else {
        return Err(tokens.refuse(NO_NAME));
    };
    match &token.kind {
        TokenKind::Quoted(text) => {
            tokens.go_to(behind);
            Ok(Expr::Const(Value::Str(text.share()?)))
        }
        TokenKind::Simple(_) | TokenKind::Stem(_) | TokenKind::Compound(..) => {
            Ok(Expr::Name(variable(alloc, tokens)?))
        }
        _ => group(alloc, tokens, NO_NAME),
    }
}

fn has_args(args: &Forwarded) -> bool
    ensures { result ≡ spec.has_args args.now }
{
    !matches!(args, Forwarded::Own)
}

// The refusal of an option's word that stands twice.
fn twice<'a>(tokens: &mut Cursor<'a>, here: &'a [Token]) -> Refused
    ensures { fault_of result ≡ lack 25 here.now }
{
    tokens.go_to(here);
    tokens.lack(NO_WORD)
}

// The operand of an option, behind its word, unless the option stood before.
fn operand_once<'a>(
    alloc: Global,
    tokens: &mut Cursor<'a>,
    here: &'a [Token],
    stood: bool,
) -> Result<Expr, Refused>
    ensures { Reads (spec.operand_once stood here.now tokens.old) result tokens.new }
{
    if stood {
        return Err(twice(tokens, here));
    }
    operand(alloc, tokens)
}

// The arguments of ARRAY, behind its word, unless some stood before.
fn array_once<'a>(
    alloc: Global,
    tokens: &mut Cursor<'a>,
    here: &'a [Token],
    stood: bool,
) -> Result<Items<Option<Expr>>, Refused>
    ensures { Reads (spec.array_once stood here.now tokens.old) result tokens.new }
{
    if stood {
        return Err(twice(tokens, here));
    }
    if !tokens.left_paren() {
        return Err(tokens.refuse(NO_WORD));
    }
    read_args(alloc, tokens)
}

// One option more.
fn option(alloc: Global, tokens: &mut Cursor<'_>, read: Forward) -> Result<Forward, Refused>
    ensures { Reads (spec.option read tokens.old) result tokens.new }
{
    let mut read = read;
    let here = tokens.rest();
    if eat_word(tokens, b"TO") {
        let stood = read.to.is_some();
        read.to = Some(operand_once(alloc, tokens, here, stood)?);
        return Ok(read);
    }
    if eat_word(tokens, b"CLASS") {
        let stood = read.class.is_some();
        read.class = Some(operand_once(alloc, tokens, here, stood)?);
        return Ok(read);
    }
    if eat_word(tokens, b"MESSAGE") {
        let stood = read.message.is_some();
        read.message = Some(operand_once(alloc, tokens, here, stood)?);
        return Ok(read);
    }
    if eat_word(tokens, b"ARGUMENTS") {
        let stood = has_args(&read.args);
        read.args = Forwarded::Arguments(operand_once(alloc, tokens, here, stood)?);
        return Ok(read);
    }
    if eat_word(tokens, b"ARRAY") {
        let stood = has_args(&read.args);
        read.args = Forwarded::Array(array_once(alloc, tokens, here, stood)?);
        return Ok(read);
    }
    if !eat_word(tokens, b"CONTINUE") {
        return Err(tokens.refuse(NO_WORD));
    }
    if read.goes_on {
        return Err(twice(tokens, here));
    }
    read.goes_on = true;
    Ok(read)
}

/// The options of FORWARD, and the end of the clause.
#[tactic(auto, using(crate::proofs::Lists::options_is))]
pub(crate) fn forward(alloc: Global, tokens: &mut Cursor<'_>) -> Result<Forward, Refused>
    ensures { Reads (spec.forward tokens.old) result tokens.new }
{
    options(alloc, tokens, no_options())
}

// No options.
fn no_options() -> Forward
    ensures { result ≡ no_options }
{
    Forward {
        to: None,
        class: None,
        message: None,
        args: Forwarded::Own,
        goes_on: false,
    }
}

// The options behind those that were read already, and the end of the clause.
#[tactic(auto, using(crate::proofs::Lists::option_lists))]
fn options(alloc: Global, tokens: &mut Cursor<'_>, read: Forward) -> Result<Forward, Refused>
    ensures { Reads (forms.options_form read tokens.old) result tokens.new }
{
    let mut read = read;
    while !eat_end(tokens) {
        read = option(alloc, tokens, read)?;
    }
    Ok(read)
}
