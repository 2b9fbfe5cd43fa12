// The tokens of a source.
ghost use Rattle.std.specs.Prelude.{◌<◌, ◌^◌, length};

use rx_escape::escape;
use rx_scan::{LONGEST_SOURCE, ScanRefused, bracket_depth, scan};
use rx_tree::{Part, Token, TokenKind};
use std::alloc::{AllocError, Global};

fn show_text(shown: &mut Vec<u8>, mark: u8, text: &[u8]) -> Result<(), AllocError> {
    shown.push(mark)?;
    shown.extend_from_slice(text)
}

/// The parts of a tail as text: a part that stands for itself behind `=`, and one that is a variable behind `$`.
pub fn show_parts(shown: &mut Vec<u8>, parts: &[Part]) -> Result<(), AllocError> {
    for part in parts {
        match part {
            Part::Fixed(text) => show_text(shown, b'=', text.bytes())?,
            Part::Of(text) => show_text(shown, b'$', text.bytes())?,
        }
    }
    Ok(())
}

// A letter for the kind, and its text; an operator by its name; another token by its spelling.
fn show_kind(alloc: Global, shown: &mut Vec<u8>, kind: &TokenKind) -> Result<(), AllocError> {
    match kind {
        TokenKind::Simple(text) => show_text(shown, b's', text.bytes()),
        TokenKind::Stem(text) => show_text(shown, b't', text.bytes()),
        TokenKind::Compound(stem, parts) => {
            show_text(shown, b'c', stem.bytes())?;
            show_parts(shown, parts.as_slice())
        }
        TokenKind::Constant(text) => show_text(shown, b'n', text.bytes()),
        TokenKind::Environment(text) => show_text(shown, b'e', text.bytes()),
        TokenKind::Quoted(text) => show_text(shown, b'q', text.bytes()),
        TokenKind::Operator(oper) => {
            let name = format!(in alloc; "{oper:?}")?;
            shown.extend_from_slice(name.as_bytes())
        }
        TokenKind::LeftParen => show_text(shown, b'(', b""),
        TokenKind::RightParen => show_text(shown, b')', b""),
        TokenKind::LeftBracket => show_text(shown, b'[', b""),
        TokenKind::RightBracket => show_text(shown, b']', b""),
        TokenKind::Comma => show_text(shown, b',', b""),
        TokenKind::Colon => show_text(shown, b':', b""),
        TokenKind::TwoColons => show_text(shown, b':', b":"),
        TokenKind::Period => show_text(shown, b'.', b""),
        TokenKind::ClauseEnd => show_text(shown, b';', b""),
    }
}

// Each token with its line, `_` where a blank stands before it, and its kind.
fn show_tokens(alloc: Global, tokens: &[Token]) -> Result<Vec<u8>, AllocError> {
    let mut shown = Vec::new(alloc);
    for token in tokens {
        let line = format!(in alloc; "  {}", token.line)?;
        shown.extend_from_slice(line.as_bytes())?;
        shown.push(if token.blank { b'_' } else { b' ' })?;
        show_kind(alloc, &mut shown, &token.kind)?;
    }
    Ok(shown)
}

// The tokens as text, with the most brackets that are open at once.
fn tell_tokens(alloc: Global, tokens: &[Token]) -> Result<String, AllocError>
    requires { length tokens.now < 2 ^ 32 }
{
    let shown = show_tokens(alloc, tokens)?;
    let shown = escape(alloc, shown.as_slice())?;
    format!(in alloc; "depth {}:{shown}", bracket_depth(tokens))
}

/// The tokens of a source as text, or why there are none.
pub fn tell_scan(alloc: Global, source: &[u8]) -> Result<String, AllocError> {
    if source.len() > LONGEST_SOURCE {
        return format!(in alloc; "too long");
    }
    match scan(alloc, source) {
        Ok(tokens) => tell_tokens(alloc, tokens.as_slice()),
        Err(ScanRefused::Bad { line, number }) => format!(in alloc; "line {line} error {number}"),
        Err(ScanRefused::OutOfMemory) => Err(AllocError),
    }
}
