// The tokens of a source.
ghost use Rattle.std.specs.Prelude.{◌≡◌, ◌≤◌, ◌+◌, ◌++◌, List, [], length, IfOk, OnOk, All};
ghost use Rattle.rx_tree.specs.Comments.{is_line_end};
ghost use Rattle.rx_tree.specs.Pieces.{AreCut};
ghost use Rattle.rx_tree.specs.Pieces as pieces;
ghost use Rattle.rx_tree.specs.Spelling as spelling;
ghost use Rattle.rx_scan.specs.Read.{kind_of};
ghost use Rattle.rx_tree.specs.Spelling.{feeds, ends_line, token_of, before_others, IsOnLine, AtMostOneSpelling};
ghost use Rattle.rx_scan.specs.Scanned.{IsScanned};

use crate::comment::behind_space;
use crate::piece::{Piece, Read, read_piece};
use crate::place::{Place, may_continue};
use rx_tree::{OutOfMemory, Token};
use sqlite_items::Items;
use std::alloc::{AllocError, Global};

/// The most bytes of a source, 4 MiB.
pub const LONGEST_SOURCE: usize = 4_194_304;

/// Why a source has no tokens.
#[derive(Clone, Copy, Debug, PartialEq, Eq, thiserror::Error)]
pub enum ScanRefused {
    /// No tokens spell it: a comment or a string isn't closed (6), a byte begins nothing (13), or a binary or hexadecimal
    /// string is none (15).
    #[error("error {number} in line {line}")]
    Bad { line: u32, number: u8 },
    /// A growth of memory was refused.
    #[error("out of memory")]
    OutOfMemory,
}

impl From<OutOfMemory> for ScanRefused {
    ghost use Rattle.rx_scan.specs.declared.scanner.ScanRefused.TheVariants as refused;

    ghost from_gives = { λ _ e. e ≡ refused.OutOfMemory };

    fn from(_error: OutOfMemory) -> ScanRefused {
        ScanRefused::OutOfMemory
    }
}

impl From<AllocError> for ScanRefused {
    ghost use Rattle.rx_scan.specs.declared.scanner.ScanRefused.TheVariants as refused;

    ghost from_gives = { λ _ e. e ≡ refused.OutOfMemory };

    fn from(_error: AllocError) -> ScanRefused {
        ScanRefused::OutOfMemory
    }
}

// How many lines end in some bytes.
fn feeds(bytes: &[u8]) -> usize
    ensures { result ≡ feeds bytes.now }
{
    bytes.iter().filter(|byte| **byte == b'\n').count()
}

// Whether a line ends in front of the bytes.
fn is_line_end(bytes: &[u8]) -> bool
    ensures { result ≡ is_line_end bytes.now }
{
    match bytes {
        [first, ..] => *first == b'\n',
        [] => true,
    }
}

// Whether a line ends in front of the bytes, blanks and what counts as nothing aside.
fn ends_line(bytes: &[u8]) -> bool
    ensures { (cut : List pieces.Piece) → AreCut cut bytes.now → result ≡ ends_line cut }
{
    let mut rest = bytes;
    while let Some(behind) = behind_space(rest) {
        rest = behind;
    }
    is_line_end(rest)
}

// Whether a piece drops out, since it continues the line that it ends.
fn drops_out(piece: &Piece, behind: &[u8]) -> bool
    ensures { (place : spelling.Place) (cut : List pieces.Piece) → AreCut cut behind.now → token_of place (kind_of piece.now) result ≡ token_of place (kind_of piece.now) (ends_line cut) }
{
    match piece {
        Piece::Written(kind) if may_continue(kind) => ends_line(behind),
        _ => false,
    }
}

// Appends a token, if there is one.
fn push(tokens: &mut Items<Token>, token: Option<Token>) -> Result<(), AllocError>
    ensures { OnOk result (tokens.new ≡ tokens.old ++ before_others token []) }
{
    if let Some(token) = token {
        tokens.push(token)?;
    }
    Ok(())
}

/// The tokens that spell the source; or why there are none.
pub fn scan(alloc: Global, source: &[u8]) -> Result<Items<Token>, ScanRefused>
    requires short { length source.now ≤ LONGEST_SOURCE }
    ensures tokens { IsScanned source.now result }
    ensures lines { IfOk result (All (IsOnLine source.now)) }
    ensures few { IfOk result (λ tokens. length tokens ≤ length source.now + 1) }
{
    let mut tokens = Items::new(alloc);
    let mut place = Place::first();
    let mut rest = source;
    while !rest.is_empty() {
        let (piece, behind) = match read_piece(alloc, rest)? {
            Read::Piece(piece, behind) => (piece, behind),
            Read::Refused(number) => return Err(ScanRefused::Bad {
                line: place.line,
                number,
            }),
        };
        let lines = feeds(&rest[..rest.len() - behind.len()]) as u32;
        let at_end = drops_out(&piece, behind);
        let (token, next) = place.pass(piece, lines, at_end);
        push(&mut tokens, token)?;
        place = next;
        rest = behind;
    }
    push(&mut tokens, place.clause_end(place.has_token))?;
    Ok(tokens)
}

/// At most one list of tokens spells a source.
pub fn at_most_one_spelling()
    ensures law { AtMostOneSpelling }
{}
