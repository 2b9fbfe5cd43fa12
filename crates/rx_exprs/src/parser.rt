// The parser of expressions, level by level. Only brackets make the functions go deeper.
ghost use Rattle.std.specs.Prelude.{◌≡◌, ◌+◌, ◌^◌, ◌<◌, ◌≤◌, [], length, drop, IfOk, IfErr};
ghost use Rattle.rx_tree.specs.Expressions.{Fits};
ghost use Rattle.rx_tree.specs.declared.expr.SendPart.{SendPart};
ghost use Rattle.rx_scan.specs.Depth.{bracket_depth};
ghost use Rattle.rx_tree.specs.declared.stops.Stops.TheVariants.{Nothing};
ghost use Rattle.rx_exprs.specs.declared.operators.Bracketed.TheVariants.{Round};
ghost use Rattle.rx_exprs.specs.Forms as spec;
ghost use Rattle.rx_exprs.specs.Reader.{expression};
ghost use Rattle.rx_exprs.specs.Reads.{Reads};
ghost use Rattle.rx_exprs.specs.Parsed.{IsRefused};

use crate::cursor::Cursor;
use crate::operators::{Bracketed, End, Opening};
use crate::refused::{ParseRefused, Refused, UNCLOSED};
use crate::trees::{make_chain, make_prefix, make_sends};
use crate::words::{word_function, word_term};
use rx_tree::{Expr, Oper, SendPart, Stops, Text, Token};
use sqlite_items::{Boxed, Items};
use std::alloc::Global;

/// How deep brackets may stand in one another.
pub const DEEPEST: u32 = 250;

// How many levels of operators with two operands there are, but for the tightest.
const LOOSEST: u8 = 6;

// An expression whose operators are of level n + 3 or tighter.
#[cycle(expr)]
#[tactic(auto, using(crate::proofs::Ways::chains))]
fn chain(alloc: Global, tokens: &mut Cursor<'_>, stops: Stops, n: u8) -> Result<Expr, Refused>
    requires { n ≤ 6 }
    ensures { Reads (spec.level_form stops (n + 3) tokens.old) result tokens.new }
{
    let first = operand(alloc, tokens, stops, n)?;
    let found = terms(alloc, tokens, stops, n)?;
    Ok(make_chain(alloc, first, found)?)
}

// An operand of operators of level n + 3.
#[cycle(expr)]
fn operand(alloc: Global, tokens: &mut Cursor<'_>, stops: Stops, n: u8) -> Result<Expr, Refused>
    requires { n ≤ 6 }
    ensures { Reads (spec.level_form stops (n + 2) tokens.old) result tokens.new }
{
    if n == 0 {
        prefixed(alloc, tokens, stops)
    } else {
        chain(alloc, tokens, stops, n - 1)
    }
}

// Operators of level n + 3, and the operands behind them.
#[cycle(expr)]
#[tactic(auto, using(crate::proofs::Ways::chains))]
fn terms(
    alloc: Global,
    tokens: &mut Cursor<'_>,
    stops: Stops,
    n: u8,
) -> Result<Items<(Oper, Expr)>, Refused>
    requires { n ≤ 6 }
    ensures { Reads (spec.terms_form stops n [] tokens.old) result tokens.new }
{
    let mut found = Items::new(alloc);
    while let Some(oper) = tokens.operator(stops, n + 3) {
        let expr = operand(alloc, tokens, stops, n)?;
        found.push((oper, expr))?;
    }
    Ok(found)
}

// A term, with messages, and the prefix operators before it.
#[cycle(expr)]
#[tactic(auto, using(crate::proofs::Ways::prefixes))]
fn prefixed(alloc: Global, tokens: &mut Cursor<'_>, stops: Stops) -> Result<Expr, Refused>
    ensures { Reads (spec.level_form stops 2 tokens.old) result tokens.new }
{
    let opers = tokens.signs(alloc)?;
    let term = message_term(alloc, tokens, stops)?;
    Ok(make_prefix(alloc, opers, term)?)
}

// A term, with messages.
#[cycle(expr)]
#[tactic(auto, using(crate::proofs::Ways::messages))]
fn message_term(alloc: Global, tokens: &mut Cursor<'_>, stops: Stops) -> Result<Expr, Refused>
    ensures { Reads (spec.level_form stops 1 tokens.old) result tokens.new }
{
    let receiver = primary(alloc, tokens, stops)?;
    let found = messages(alloc, tokens)?;
    Ok(make_sends(alloc, receiver, found)?)
}

#[cycle(expr)]
#[tactic(auto, using(crate::proofs::Ways::messages))]
fn messages(alloc: Global, tokens: &mut Cursor<'_>) -> Result<Items<SendPart>, Refused>
    ensures { Reads (spec.parts_form [] tokens.old) result tokens.new }
{
    let mut found = Items::new(alloc);
    while let Some(opening) = tokens.opening() {
        let part = message(alloc, tokens, opening)?;
        found.push(part)?;
    }
    Ok(found)
}

// A message behind what it begins with.
#[cycle(expr)]
#[tactic(auto, using(crate::proofs::Ways::messages))]
fn message(alloc: Global, tokens: &mut Cursor<'_>, opening: Opening) -> Result<SendPart, Refused>
    ensures { Reads (spec.part_form opening tokens.old) result tokens.new }
{
    match opening {
        Opening::Tilde(back) => {
            let name = tokens.name(alloc)?;
            let above = tokens.above()?;
            let args = call(alloc, tokens)?;
            Ok(SendPart {
                name,
                above,
                args,
                back,
                bracket: false,
            })
        }
        Opening::Bracket => {
            let args = args(alloc, tokens, Bracketed::Square)?;
            let name = Text::from_slice(alloc, &[])?;
            Ok(SendPart {
                name,
                above: None,
                args,
                back: false,
                bracket: true,
            })
        }
    }
}

// The arguments directly behind a message's name, if there are some.
#[cycle(expr)]
#[tactic(auto, using(crate::proofs::Ways::messages))]
fn call(alloc: Global, tokens: &mut Cursor<'_>) -> Result<Items<Option<Expr>>, Refused>
    ensures { Reads (spec.call_form tokens.old) result tokens.new }
{
    if !tokens.call() {
        return Ok(Items::new(alloc));
    }
    args(alloc, tokens, Bracketed::Round)
}

// A term without messages.
#[cycle(expr)]
#[tactic(auto, using(crate::proofs::Ways::primaries))]
fn primary(alloc: Global, tokens: &mut Cursor<'_>, stops: Stops) -> Result<Expr, Refused>
    ensures { Reads (spec.level_form stops 0 tokens.old) result tokens.new }
{
    if tokens.left_paren() {
        let inner = chain(alloc, tokens, Stops::Nothing, LOOSEST)?;
        if !tokens.right_paren() {
            return Err(tokens.refuse(UNCLOSED));
        }
        return Ok(Expr::Group(Boxed::new(alloc, inner)?));
    }
    let word = tokens.word(alloc, stops)?;
    if !tokens.call() {
        return Ok(word_term(word));
    }
    let args = args(alloc, tokens, Bracketed::Round)?;
    Ok(word_function(alloc, &word, args)?)
}

// Arguments up to the closing bracket.
#[cycle(expr)]
#[tactic(auto, using(crate::proofs::Ways::lists))]
fn args(
    alloc: Global,
    tokens: &mut Cursor<'_>,
    bracketed: Bracketed,
) -> Result<Items<Option<Expr>>, Refused>
    ensures { Reads (spec.args_form bracketed tokens.old) result tokens.new }
{
    let mut found = Items::new(alloc);
    if tokens.close(bracketed) {
        return Ok(found);
    }
    loop {
        let arg = argument(alloc, tokens, bracketed)?;
        found.push(arg)?;
        match tokens.end(bracketed) {
            Some(End::Comma) => {}
            Some(End::Close) => return Ok(found),
            None => return Err(tokens.refuse(UNCLOSED)),
        }
    }
}

// An argument, which may be omitted.
#[cycle(expr)]
#[tactic(auto, using(crate::proofs::Ways::lists))]
fn argument(
    alloc: Global,
    tokens: &mut Cursor<'_>,
    bracketed: Bracketed,
) -> Result<Option<Expr>, Refused>
    ensures { Reads (spec.argument_form bracketed tokens.old) result tokens.new }
{
    if tokens.sees_end(bracketed) {
        return Ok(None);
    }
    Ok(Some(chain(alloc, tokens, Stops::Nothing, LOOSEST)?))
}

/// The expression that begins here and holds none of the stop words outside brackets, where nothing goes on with it; for a
/// reader of what expressions stand in.
#[tactic(auto, using(crate::proofs::Steady::whole))]
pub fn read_expr(alloc: Global, tokens: &mut Cursor<'_>, stops: Stops) -> Result<Expr, Refused>
    ensures { Reads (expression stops tokens.old) result tokens.new }
{
    chain(alloc, tokens, stops, LOOSEST)
}

/// The term that begins here, with its messages; for a reader of what terms stand in.
pub fn read_term(alloc: Global, tokens: &mut Cursor<'_>) -> Result<Expr, Refused>
    ensures { Reads (spec.level_form Nothing 1 tokens.old) result tokens.new }
{
    message_term(alloc, tokens, Stops::Nothing)
}

/// The arguments behind an opening parenthesis, up to the closing one.
pub fn read_args(alloc: Global, tokens: &mut Cursor<'_>) -> Result<Items<Option<Expr>>, Refused>
    ensures { Reads (spec.args_form Round tokens.old) result tokens.new }
{
    args(alloc, tokens, Bracketed::Round)
}

/// The expression that begins at a place and holds none of the stop words outside brackets, with the place behind it, where
/// nothing goes on with it; or why there is none. Places count tokens from 0.
pub fn parse_expr(
    alloc: Global,
    tokens: &[Token],
    from: u32,
    stops: Stops,
) -> Result<(Expr, u32), ParseRefused>
    requires within { from ≤ length tokens.now }
    requires few { length tokens.now < 2 ^ 32 }
    requires shallow { bracket_depth tokens.now ≤ DEEPEST }
    ensures fits { IfOk result (λ found. Fits stops (drop from tokens.now) found.0 (drop found.1 tokens.now)) }
    ensures behind { IfOk result (λ found. from < found.1) }
    ensures end { IfOk result (λ found. found.1 ≤ length tokens.now) }
    ensures refused { IfErr result (IsRefused stops tokens.now from) }
{
    let mut cursor = Cursor::new(&tokens[from as usize..]);
    match chain(alloc, &mut cursor, stops, LOOSEST) {
        Ok(expr) => Ok((expr, (tokens.len() - cursor.left()) as u32)),
        Err(refused) => Err(refused.among(tokens.len())),
    }
}
