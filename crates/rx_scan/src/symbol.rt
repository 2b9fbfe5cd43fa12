// The token of a symbol.
ghost use Rattle.std.specs.Prelude.{◌≡◌, ◌≤◌, ◌<◌, ◌+◌, length, IfOk, IfSome, position, take, drop, Some};
ghost use Rattle.std.specs.List.{prefix_len};
ghost use Rattle.rx_tree.specs.Letters.{begins, is_digit, is_period, is_name_front, is_symbol_byte};
ghost use Rattle.rx_tree.specs.Symbols.{part_of, parts_of, with_tail, with_period, variable_of, begins_constant, symbol_of};
ghost use Rattle.rx_scan.specs.Reader.{symbol_at};

use crate::bytes::{is_name_front, is_symbol_byte};
use rx_text::upper;
use rx_tree::{OutOfMemory, Part, Text, TokenKind};
use sqlite_items::Items;
use std::alloc::Global;

// A part of a tail.
fn part_of(alloc: Global, part: &[u8]) -> Result<Part, OutOfMemory>
    requires { length part.now ≤ Text.LONGEST }
    ensures { IfOk result (λ found. found ≡ part_of part.now) }
{
    let text = Text::from_slice(alloc, part)?;
    match part {
        [first, ..] if is_name_front(*first) => Ok(Part::Of(text)),
        _ => Ok(Part::Fixed(text)),
    }
}

// The place of the first period.
fn first_period(bytes: &[u8]) -> Option<usize>
    ensures place { result ≡ position is_period bytes.now }
    ensures within { IfSome result (λ at. at < length bytes.now) }
{
    bytes.iter().position(|byte| *byte == b'.')
}

// The parts of a tail.
fn parts_of(alloc: Global, tail: &[u8]) -> Result<Items<Part>, OutOfMemory>
    requires { length tail.now ≤ Text.LONGEST }
    ensures { IfOk result (λ parts. parts ≡ parts_of tail.now) }
{
    let mut parts = Items::new(alloc);
    let mut rest = tail;
    while let Some(at) = first_period(rest) {
        parts.push(part_of(alloc, &rest[..at])?)?;
        rest = &rest[at + 1..];
    }
    parts.push(part_of(alloc, rest)?)?;
    Ok(parts)
}

// A stem with its period, and its tail.
fn with_tail(alloc: Global, stem: &[u8], tail: &[u8]) -> Result<TokenKind, OutOfMemory>
    requires stem { length stem.now ≤ Text.LONGEST }
    requires tail { length tail.now ≤ Text.LONGEST }
    ensures { IfOk result (λ kind. kind ≡ with_tail stem.now tail.now) }
{
    let stem = Text::from_slice(alloc, stem)?;
    if tail.is_empty() {
        return Ok(TokenKind::Stem(stem));
    }
    Ok(TokenKind::Compound(stem, parts_of(alloc, tail)?))
}

// A symbol that begins as a variable does.
fn variable_of(alloc: Global, name: &[u8]) -> Result<TokenKind, OutOfMemory>
    requires { length name.now ≤ Text.LONGEST }
    ensures { IfOk result (λ kind. kind ≡ variable_of name.now (position is_period name.now)) }
{
    match first_period(name) {
        None => Ok(TokenKind::Simple(Text::from_slice(alloc, name)?)),
        Some(at) => with_tail(alloc, &name[..at + 1], &name[at + 1..]),
    }
}

fn begins_constant(symbol: &[u8]) -> bool
    ensures { result ≡ begins_constant symbol.now }
{
    match symbol {
        [first, second, ..] => first.is_ascii_digit() || *first == b'.' && second.is_ascii_digit(),
        [first] => first.is_ascii_digit(),
        [] => false,
    }
}

// A symbol that begins with a period and is no constant.
fn with_period(alloc: Global, symbol: &[u8]) -> Result<TokenKind, OutOfMemory>
    requires { length symbol.now ≤ Text.LONGEST }
    ensures { IfOk result (λ kind. kind ≡ with_period symbol.now) }
{
    match symbol {
        [] | [_] => Ok(TokenKind::Period),
        _ => Ok(TokenKind::Environment(Text::from_slice(alloc, symbol)?)),
    }
}

// The token of a symbol whose letters are in upper case.
fn symbol_of(alloc: Global, symbol: &[u8]) -> Result<TokenKind, OutOfMemory>
    requires { length symbol.now ≤ Text.LONGEST }
    ensures { IfOk result (λ kind. kind ≡ symbol_of symbol.now) }
{
    if begins_constant(symbol) {
        return Ok(TokenKind::Constant(Text::from_slice(alloc, symbol)?));
    }
    match symbol {
        [b'.', ..] => with_period(alloc, symbol),
        _ => variable_of(alloc, symbol),
    }
}

// How many bytes at the front may stand in a symbol.
fn symbol_length(bytes: &[u8]) -> usize
    ensures { result ≡ prefix_len is_symbol_byte bytes.now }
{
    bytes
        .iter()
        .take_while(|byte| is_symbol_byte(**byte))
        .count()
}

/// The token of the symbol at the front, and the bytes behind it; or want of memory. Letters are taken in upper case.
#[tactic(auto, using(crate::proofs::Prefixes::lengths))]
pub fn read_symbol(alloc: Global, bytes: &[u8]) -> Result<(TokenKind, &[u8]), OutOfMemory>
    requires { length bytes.now ≤ Text.LONGEST }
    ensures symbol { IfOk result (λ read. (read.0, read.1.now) ≡ symbol_at bytes.now) }
{
    let length = symbol_length(bytes);
    let Ok(symbol) = upper(alloc, &bytes[..length]) else {
        return Err(OutOfMemory);
    };
    let kind = symbol_of(alloc, symbol.as_slice())?;
    Ok((kind, &bytes[length..]))
}
