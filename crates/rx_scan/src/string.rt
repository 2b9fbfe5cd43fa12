// The token of a string.
ghost use Rattle.std.specs.Prelude.{◌≡◌, ◌==◌, ◌∷◌, false, ◌≤◌, ◌+◌, [], length, IfOk, IfSome, MatchOption, option_map, codes};
ghost use Rattle.rx_tree.specs.Letters.{begins};
ghost use Rattle.rx_tree.specs.Strings.{takes_suffix, is_suffix, is_binary};
ghost use Rattle.rx_scan.specs.Reader.{string_from, suffixed, string_at};
ghost use Rattle.rx_scan.specs.Read.{HasNoQuote, IsRead, IsSplit, TextRead};

use crate::bytes::begins_in_symbol;
use crate::piece::{INVALID_DIGITS, Piece, Read, UNMATCHED};
use memchr::memchr2;
use rx_digits::packed;
use rx_tree::{OutOfMemory, Text, TokenKind};
use std::alloc::Global;

// The bytes up to the next quote, and those behind it; none where the line ends before it.
fn split_text(quote: u8, bytes: &[u8]) -> Option<(&[u8], &[u8])>
    ensures split { MatchOption result (HasNoQuote quote bytes.now) (λ split. IsSplit quote bytes.now split.0.now split.1.now) }
{
    let Some(at) = memchr2(quote, b'\n', bytes) else {
        return None;
    };
    if bytes[at] != quote {
        return None;
    }
    Some((&bytes[..at], &bytes[at + 1..]))
}

// The bytes behind a quote at the front.
fn behind_quote(quote: u8, bytes: &[u8]) -> Option<&[u8]>
    ensures { MatchOption result (begins (λ b. b == quote) bytes.now ≡ false) (λ more. bytes.now ≡ quote ∷ more.now) }
{
    match bytes {
        [first, more @ ..] if *first == quote => Some(more),
        _ => None,
    }
}

// The text behind an opening quote, and the bytes behind the closing one; none where the line ends before it.
fn read_text(
    alloc: Global,
    quote: u8,
    bytes: &[u8],
) -> Result<Option<(Vec<u8>, &[u8])>, OutOfMemory>
    ensures text { IfOk result (λ read. TextRead read (string_from quote [] bytes.now)) }
    ensures few { IfOk result (λ found. IfSome found (λ read. length read.0.items + length read.1.now ≤ length bytes.now)) }
{
    let mut text = Vec::new(alloc);
    let mut rest = bytes;
    while let Some((front, behind)) = split_text(quote, rest) {
        text.extend_from_slice(front)?;
        let Some(more) = behind_quote(quote, behind) else {
            return Ok(Some((text, behind)));
        };
        text.push(quote)?;
        rest = more;
    }
    Ok(None)
}

fn is_binary(byte: u8) -> bool
    ensures { result ≡ is_binary byte }
{
    byte == b'B' || byte == b'b'
}

fn is_suffix(byte: u8) -> bool
    ensures { result ≡ is_suffix byte }
{
    is_binary(byte) || byte == b'X' || byte == b'x'
}

fn takes_suffix(bytes: &[u8]) -> bool
    ensures { result ≡ takes_suffix bytes.now }
{
    match bytes {
        [first, rest @ ..] => is_suffix(*first) && !begins_in_symbol(rest),
        [] => false,
    }
}

// The token of a text between quotes, by what stands behind it.
fn suffixed<'a>(alloc: Global, text: &[u8], rest: &'a [u8]) -> Result<Read<'a>, OutOfMemory>
    requires { length text.now ≤ Text.LONGEST }
    ensures { IfOk result (IsRead (suffixed text.now rest.now)) }
{
    match rest {
        [suffix, behind @ ..] if takes_suffix(rest) => {
            let Some(bytes) = packed(alloc, is_binary(*suffix), text)? else {
                return Ok(Read::Refused(INVALID_DIGITS));
            };
            let text = Text::from_slice(alloc, bytes.as_slice())?;
            Ok(Read::Piece(Piece::Written(TokenKind::Quoted(text)), behind))
        }
        _ => {
            let text = Text::from_slice(alloc, text)?;
            Ok(Read::Piece(Piece::Written(TokenKind::Quoted(text)), rest))
        }
    }
}

/// The token of the string behind an opening quote.
pub fn read_string(alloc: Global, quote: u8, bytes: &[u8]) -> Result<Read, OutOfMemory>
    requires { length bytes.now ≤ Text.LONGEST }
    ensures string { IfOk result (IsRead (string_at quote bytes.now)) }
{
    let Some((text, rest)) = read_text(alloc, quote, bytes)? else {
        return Ok(Read::Refused(UNMATCHED));
    };
    suffixed(alloc, text.as_slice(), rest)
}
