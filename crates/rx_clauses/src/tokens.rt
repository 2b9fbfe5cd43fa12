// What stands at the front of the tokens that are left.
ghost use Rattle.std.specs.Prelude.{◌≡◌, IfOk, is_some};
ghost use Rattle.std.specs.Str.{bytes_eq};
ghost use Rattle.rx_exprs.specs.Reads.{Eats, Reads};
ghost use Rattle.rx_clause_tree.specs.Bodies.{ends_body};
ghost use Rattle.rx_clause_tree.specs.Clauses.{behind_then};
ghost use Rattle.rx_clause_tree.specs.ClauseWords as words;
ghost use Rattle.rx_clauses.specs.Parts as spec;
ghost use Rattle.rx_clauses.specs.Reader.{line_of, behind};

use crate::numbers::{NO_END, NO_SYMBOL, NO_VARIABLE};
use rx_exprs::{Cursor, Refused, name_of};
use rx_tree::{Name, Oper, OutOfMemory, Part, Text, TokenKind};
use std::alloc::Global;

/// Whether two texts have the same bytes.
pub(crate) fn same(a: &[u8], b: &[u8]) -> bool
    ensures { result ≡ bytes_eq a.now b.now }
{
    a == b
}

/// Whether a token is the symbol of a word.
pub fn is_word(word: &[u8], kind: &TokenKind) -> bool
    ensures { result ≡ words.is_word word.now kind.now }
{
    match kind {
        TokenKind::Simple(name) => same(word, name.bytes()),
        _ => false,
    }
}

/// The variable that a token names, if it does.
pub fn variable_of(alloc: Global, kind: &TokenKind) -> Result<Option<Name>, OutOfMemory>
    ensures { IfOk result (λ name. name ≡ words.variable_of kind.now) }
{
    match kind {
        TokenKind::Simple(name) => Ok(Some(Name::Simple(name.share()?))),
        TokenKind::Stem(stem) => Ok(Some(Name::Stem(stem.share()?))),
        TokenKind::Compound(stem, tail) => {
            let stem = stem.share()?;
            let tail = Part::share_all(alloc, tail.as_slice())?;
            Ok(Some(Name::Compound(stem, tail)))
        }
        _ => Ok(None),
    }
}

/// Whether a token names a variable.
pub(crate) fn is_variable(kind: &TokenKind) -> bool
    ensures { result ≡ is_some (words.variable_of kind.now) }
{
    matches!(
        kind,
        TokenKind::Simple(_) | TokenKind::Stem(_) | TokenKind::Compound(..)
    )
}

/// The text of a symbol that a token is, if it is one.
pub(crate) fn symbol_of(alloc: Global, kind: &TokenKind) -> Result<Option<Text>, OutOfMemory>
    ensures { IfOk result (λ name. name ≡ words.symbol_of kind.now) }
{
    match kind {
        TokenKind::Quoted(_) => Ok(None),
        _ => name_of(alloc, kind),
    }
}

/// The line of the first token, and 0 where there is none.
pub(crate) fn line_of(tokens: &Cursor<'_>) -> u32
    ensures { result ≡ line_of tokens.now }
{
    match tokens.rest() {
        [token, ..] => token.line,
        [] => 0,
    }
}

/// Goes behind the first token.
pub(crate) fn go_on(tokens: &mut Cursor<'_>)
    ensures { tokens.new ≡ behind tokens.old }
{
    if let [_, behind @ ..] = tokens.rest() {
        tokens.go_to(behind);
    }
}

/// Whether the symbol of a word stands here.
pub(crate) fn sees_word(tokens: &Cursor<'_>, word: &[u8]) -> bool
    ensures { result ≡ words.begins_word word.now tokens.now }
{
    match tokens.rest() {
        [token, ..] => is_word(word, &token.kind),
        [] => false,
    }
}

/// Takes the symbol of a word.
pub fn eat_word(tokens: &mut Cursor<'_>, word: &[u8]) -> bool
    ensures { Eats (spec.behind_symbol word.now tokens.old) result tokens.old tokens.new }
{
    if let [token, behind @ ..] = tokens.rest() {
        if is_word(word, &token.kind) {
            tokens.go_to(behind);
            return true;
        }
    }
    false
}

/// Takes the end of a clause.
pub fn eat_end(tokens: &mut Cursor<'_>) -> bool
    ensures { Eats (words.behind_end tokens.old) result tokens.old tokens.new }
{
    if let [token, behind @ ..] = tokens.rest() {
        if matches!(&token.kind, TokenKind::ClauseEnd) {
            tokens.go_to(behind);
            return true;
        }
    }
    false
}

/// Takes the end of a clause, where one stands here.
pub(crate) fn skip_end(tokens: &mut Cursor<'_>)
    ensures { tokens.new ≡ words.skip tokens.old }
{
    if let [token, behind @ ..] = tokens.rest() {
        if matches!(&token.kind, TokenKind::ClauseEnd) {
            tokens.go_to(behind);
        }
    }
}

/// Takes a word, and the clause end behind it where one stands there.
pub(crate) fn eat_word_and_end(tokens: &mut Cursor<'_>, word: &[u8]) -> bool
    ensures { Eats (words.behind_word word.now tokens.old) result tokens.old tokens.new }
{
    if let [token, behind @ ..] = tokens.rest() {
        if is_word(word, &token.kind) {
            tokens.go_to(behind);
            skip_end(tokens);
            return true;
        }
    }
    false
}

/// Takes `THEN`, with the clause ends before and behind it where they stand there.
pub(crate) fn eat_then(tokens: &mut Cursor<'_>) -> bool
    ensures { Eats (behind_then tokens.old) result tokens.old tokens.new }
{
    let here = tokens.rest();
    skip_end(tokens);
    if eat_word_and_end(tokens, b"THEN") {
        return true;
    }
    tokens.go_to(here);
    false
}

/// Takes a comma.
pub(crate) fn eat_comma(tokens: &mut Cursor<'_>) -> bool
    ensures { Eats (spec.behind_comma tokens.old) result tokens.old tokens.new }
{
    if let [token, behind @ ..] = tokens.rest() {
        if matches!(&token.kind, TokenKind::Comma) {
            tokens.go_to(behind);
            return true;
        }
    }
    false
}

// The error of a token that is no variable.
fn no_variable(kind: &TokenKind) -> u8
    ensures { result ≡ spec.no_variable kind.now }
{
    match kind {
        TokenKind::Constant(_) | TokenKind::Environment(_) | TokenKind::Period => NO_VARIABLE,
        _ => NO_SYMBOL,
    }
}

/// Takes a variable.
pub(crate) fn variable(alloc: Global, tokens: &mut Cursor<'_>) -> Result<Name, Refused>
    ensures { Reads (spec.variable_at tokens.old) result tokens.new }
{
    let [token, behind @ ..] = tokens.rest() else {
        return Err(tokens.lack(NO_SYMBOL));
    };
    let Some(name) = variable_of(alloc, &token.kind)? else {
        return Err(tokens.lack(no_variable(&token.kind)));
    };
    tokens.go_to(behind);
    Ok(name)
}

/// Takes a symbol.
pub(crate) fn symbol(alloc: Global, tokens: &mut Cursor<'_>) -> Result<Text, Refused>
    ensures { Reads (spec.symbol_at tokens.old) result tokens.new }
{
    if let [token, behind @ ..] = tokens.rest() {
        if let Some(name) = symbol_of(alloc, &token.kind)? {
            tokens.go_to(behind);
            return Ok(name);
        }
    }
    Err(tokens.lack(NO_SYMBOL))
}

/// Whether a token is an `=`.
pub(crate) fn is_equal(kind: &TokenKind) -> bool
    ensures { result ≡ words.is_equal kind.now }
{
    matches!(kind, TokenKind::Operator(Oper::Equal))
}

/// Whether a body ends here: at a directive, or with the tokens.
pub(crate) fn sees_body_end(tokens: &Cursor<'_>) -> bool
    ensures { result ≡ ends_body tokens.now }
{
    match tokens.rest() {
        [token, ..] => matches!(&token.kind, TokenKind::TwoColons),
        [] => true,
    }
}

/// What was found, where the clause ends behind it; or the refusal of what stands there by a number.
pub(crate) fn to_end_by<T: Drop>(
    found: T,
    tokens: &mut Cursor<'_>,
    number: u8,
) -> Result<T, Refused>
    ensures { Reads (spec.to_end_by number found tokens.old) result tokens.new }
{
    if eat_end(tokens) {
        Ok(found)
    } else {
        Err(tokens.refuse(number))
    }
}

/// What was found, where the clause ends behind it; or the refusal of what stands there.
pub fn to_end<T: Drop>(found: T, tokens: &mut Cursor<'_>) -> Result<T, Refused>
    ensures { Reads (spec.to_end found tokens.old) result tokens.new }
{
    to_end_by(found, tokens, NO_END)
}
