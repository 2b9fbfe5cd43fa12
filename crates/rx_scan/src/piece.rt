// The piece at the front of some bytes.
ghost use Rattle.std.specs.Prelude.{◌≡◌, ◌≤◌, length, IfOk};
ghost use Rattle.rx_scan.specs.Reader.{other_at, piece_at};
ghost use Rattle.rx_scan.specs.Read.{IsRead};

use crate::bytes::{is_quote, is_symbol_byte};
use crate::comment::space_at;
use crate::mark::{mark_at, opens_comment};
use crate::string::read_string;
use crate::symbol::read_symbol;
use rx_tree::{OutOfMemory, Text, TokenKind};
use std::alloc::Global;

/// The error of a comment or a string that isn't closed.
pub const UNMATCHED: u8 = 6;

/// The error of a byte that begins nothing.
pub const INVALID_BYTE: u8 = 13;

/// The error of a binary or hexadecimal string that is none.
pub const INVALID_DIGITS: u8 = 15;

/// A piece of a source.
#[derive(Drop)]
pub enum Piece {
    Blank,
    /// A comment, or a carriage return at the end of a line.
    Nothing,
    LineEnd,
    Semicolon,
    Written(TokenKind),
}

/// What stands at the front of some bytes: a piece, with the bytes behind it, or the number of an error.
#[derive(Drop)]
pub enum Read<'a> {
    Piece(Piece, &'a [u8]),
    Refused(u8),
}

// What stands at the front, where it is no symbol, string or end of a clause.
fn read_other(bytes: &[u8]) -> Read
    ensures { IsRead (other_at bytes.now) result }
{
    if let Some((piece, rest)) = space_at(bytes) {
        return Read::Piece(piece, rest);
    }
    if let Some((kind, rest)) = mark_at(bytes) {
        return Read::Piece(Piece::Written(kind), rest);
    }
    match bytes {
        [first, second, ..] if opens_comment(*first, *second) => Read::Refused(UNMATCHED),
        _ => Read::Refused(INVALID_BYTE),
    }
}

/// What stands at the front of the bytes.
pub fn read_piece(alloc: Global, bytes: &[u8]) -> Result<Read, OutOfMemory>
    requires { length bytes.now ≤ Text.LONGEST }
    ensures piece { IfOk result (IsRead (piece_at bytes.now)) }
{
    let [first, behind @ ..] = bytes else {
        return Ok(Read::Refused(INVALID_BYTE));
    };
    if is_symbol_byte(*first) {
        let (kind, rest) = read_symbol(alloc, bytes)?;
        return Ok(Read::Piece(Piece::Written(kind), rest));
    }
    if is_quote(*first) {
        return read_string(alloc, *first, behind);
    }
    match *first {
        b'\n' => Ok(Read::Piece(Piece::LineEnd, behind)),
        b';' => Ok(Read::Piece(Piece::Semicolon, behind)),
        _ => Ok(read_other(bytes)),
    }
}
