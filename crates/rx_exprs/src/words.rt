// Symbols and strings, as terms and as names.
ghost use Rattle.std.specs.Prelude.{◌≡◌, ◌++◌, ◌≤◌, length, IfOk, OnOk};
ghost use Rattle.rx_tree.specs.Terms.{dotted, name_of, class_of};
ghost use Rattle.rx_tree.specs.Terms as spec;
ghost use Rattle.rx_exprs.specs.Words.{word_of, word_term, word_name, word_is_string, word_function};

use rx_tree::{Expr, Name, OutOfMemory, Part, Text, TokenKind, Value};
use sqlite_items::Items;
use std::alloc::{AllocError, Global};

/// A token that is a term by itself, or the name of a function.
#[derive(Drop)]
pub enum Word {
    Name(Name),
    Constant(Text),
    Environment(Text),
    Quoted(Text),
}

fn part_bytes(part: &Part) -> &[u8]
    ensures { result.now ≡ spec.part_bytes part.now }
{
    match part {
        Part::Fixed(text) => text.bytes(),
        Part::Of(name) => name.bytes(),
    }
}

// Appends a tail, with a period between two parts.
fn push_tail(bytes: &mut Vec<u8>, tail: &[Part]) -> Result<(), AllocError>
    ensures { OnOk result (bytes.new.items ≡ bytes.old.items ++ dotted tail.now) }
{
    let mut rest = tail;
    while let [part, more @ ..] = rest {
        bytes.extend_from_slice(part_bytes(part))?;
        if !more.is_empty() {
            bytes.push(b'.')?;
        }
        rest = more;
    }
    Ok(())
}

// A compound symbol as it is written. It has no more bytes than a text has, since no source has so many; a longer one counts
// as want of memory.
fn compound_text(alloc: Global, stem: &Text, tail: &[Part]) -> Result<Text, OutOfMemory>
    ensures { IfOk result (λ text. text ≡ stem.now ++ dotted tail.now) }
{
    let mut bytes = Vec::from_slice(alloc, stem.bytes())?;
    push_tail(&mut bytes, tail)?;
    if bytes.len() > Text::LONGEST {
        return Err(OutOfMemory);
    }
    Text::from_slice(alloc, bytes.as_slice())
}

/// The name of a message that a token is, if it is one.
pub fn name_of(alloc: Global, kind: &TokenKind) -> Result<Option<Text>, OutOfMemory>
    ensures { IfOk result (λ name. name ≡ name_of kind.now) }
{
    match kind {
        TokenKind::Simple(name) | TokenKind::Stem(name) | TokenKind::Constant(name) => {
            Ok(Some(name.share()?))
        }
        TokenKind::Environment(name) | TokenKind::Quoted(name) => Ok(Some(name.share()?)),
        TokenKind::Compound(stem, tail) => Ok(Some(compound_text(alloc, stem, tail.as_slice())?)),
        _ => Ok(None),
    }
}

/// The symbol behind a message's `:` that a token is, if it is one.
pub fn class_of(kind: &TokenKind) -> Result<Option<Text>, OutOfMemory>
    ensures { IfOk result (λ class. class ≡ class_of kind.now) }
{
    match kind {
        TokenKind::Simple(name) | TokenKind::Environment(name) => Ok(Some(name.share()?)),
        _ => Ok(None),
    }
}

/// The word that a token is, if it is one.
pub fn word_of(alloc: Global, kind: &TokenKind) -> Result<Option<Word>, OutOfMemory>
    ensures { IfOk result (λ word. word ≡ word_of kind.now) }
{
    match kind {
        TokenKind::Simple(name) => Ok(Some(Word::Name(Name::Simple(name.share()?)))),
        TokenKind::Stem(stem) => Ok(Some(Word::Name(Name::Stem(stem.share()?)))),
        TokenKind::Compound(stem, tail) => {
            let stem = stem.share()?;
            let tail = Part::share_all(alloc, tail.as_slice())?;
            Ok(Some(Word::Name(Name::Compound(stem, tail))))
        }
        TokenKind::Constant(text) => Ok(Some(Word::Constant(text.share()?))),
        TokenKind::Environment(name) => Ok(Some(Word::Environment(name.share()?))),
        TokenKind::Quoted(text) => Ok(Some(Word::Quoted(text.share()?))),
        _ => Ok(None),
    }
}

/// The term that a word is.
pub fn word_term(word: Word) -> Expr
    ensures { result ≡ word_term word }
{
    match word {
        Word::Name(name) => Expr::Name(name),
        Word::Constant(text) | Word::Quoted(text) => Expr::Const(Value::Str(text)),
        Word::Environment(name) => Expr::Environment(name),
    }
}

// The name of a function, as its word is written.
fn word_name(alloc: Global, word: &Word) -> Result<Text, OutOfMemory>
    ensures { IfOk result (λ name. name ≡ word_name word.now) }
{
    match word {
        Word::Name(Name::Simple(name)) => name.share(),
        Word::Name(Name::Stem(stem)) => stem.share(),
        Word::Name(Name::Compound(stem, tail)) => compound_text(alloc, stem, tail.as_slice()),
        Word::Constant(text) | Word::Environment(text) | Word::Quoted(text) => text.share(),
    }
}

fn word_is_string(word: &Word) -> bool
    ensures { result ≡ word_is_string word.now }
{
    matches!(word, Word::Quoted(_))
}

/// The function of a word and its arguments.
pub fn word_function(
    alloc: Global,
    word: &Word,
    args: Items<Option<Expr>>,
) -> Result<Expr, OutOfMemory>
    ensures { IfOk result (λ expr. expr ≡ word_function word.now args) }
{
    let name = word_name(alloc, word)?;
    Ok(Expr::Function(name, word_is_string(word), args))
}
