// The main body and the directives of a source.
ghost use Rattle.std.specs.Prelude.{◌≡◌, ◌≤◌, ◌+◌, ◌<◌, ◌^◌, IfOk, IfErr, length};
ghost use Rattle.rx_scan.specs.Depth.{bracket_depth};
ghost use Rattle.rx_tree.specs.Spelling.{Spells, feeds};
ghost use Rattle.rx_packages.specs.Programs.{IsWritten};
ghost use Rattle.rx_packages.specs.Refusals.{IsUnread, IsFoundAt, IsUnfit, unscanned};

use crate::refused::SourceRefused;
use rx_clause_tree::Body;
use rx_clauses::parse_clauses;
use rx_directives::{Directive, parse_directives};
use rx_exprs::{DEEPEST, ParseRefused};
use rx_scan::{LONGEST_SOURCE, ScanRefused, bracket_depth, scan};
use rx_tree::Token;
use sqlite_items::Items;
use std::alloc::Global;

/// What stands in a source: its main body and its directives.
pub struct Written {
    pub main: Body,
    pub directives: Items<Directive>,
}

impl Drop for Written {
    fn drop(self) {
        let Written {
            main: _,
            directives: _,
        } = self;
    }
}

impl Written {
    /// The main body and the directives.
    pub fn into_parts(self) -> (Body, Items<Directive>)
        ensures main { result.0 ≡ self.main }
        ensures directives { result.1 ≡ self.directives }
    {
        let Written { main, directives } = self;
        (main, directives)
    }
}

// An operand is missing. It stands in place of the scanner's numbers, which no parser refuses by.
const NO_OPERAND: u8 = 35;

// How many lines end in some bytes.
fn feeds(bytes: &[u8]) -> usize
    ensures { result ≡ feeds bytes.now }
{
    bytes.iter().filter(|byte| **byte == b'\n').count()
}

/// The refusal of a source that some tokens spell: at a line of the source, by a number that is none of the scanner's.
pub fn bad(source: &[u8], line: u32, number: u8) -> SourceRefused
    requires { length source.now < 2 ^ 31 }
    ensures { IsFoundAt source.now result }
{
    let last = feeds(source) as u32 + 1;
    let number = match number {
        6 | 13 | 15 => NO_OPERAND,
        _ => number,
    };
    SourceRefused::Bad {
        line: line.clamp(1, last),
        number,
    }
}

// The refusal of the scanner.
fn unscanned(refused: ScanRefused) -> SourceRefused
    ensures { result ≡ unscanned refused }
{
    match refused {
        ScanRefused::Bad { line, number } => SourceRefused::Bad { line, number },
        ScanRefused::OutOfMemory => SourceRefused::OutOfMemory,
    }
}

// The line of the token at a place, of the last one where the tokens end, or 1 of no tokens.
fn line_at(tokens: &[Token], at: u32) -> u32 {
    match (tokens.get(at as usize), tokens) {
        (Some(token), _) | (None, [.., token]) => token.line,
        (None, []) => 1,
    }
}

// The refusal of a parser, at the line of its token.
fn unfit(source: &[u8], tokens: &[Token], refused: ParseRefused) -> SourceRefused
    requires { length source.now < 2 ^ 31 }
    ensures { IsUnfit source.now refused result }
{
    match refused {
        ParseRefused::Bad { at, number } => bad(source, line_at(tokens, at), number),
        ParseRefused::OutOfMemory => SourceRefused::OutOfMemory,
    }
}

// The body and the directives that tokens of a source are.
fn read_tokens(alloc: Global, source: &[u8], tokens: &[Token]) -> Result<Written, SourceRefused>
    requires short { length source.now ≤ LONGEST_SOURCE }
    requires few { length tokens.now ≤ length source.now + 1 }
    requires spelled { Spells source.now tokens.now }
    requires shallow { bracket_depth tokens.now ≤ DEEPEST }
    ensures ok { IfOk result (λ written. IsWritten source.now written.main written.directives) }
    ensures err { IfErr result (IsUnread source.now) }
{
    let (main, end) = match parse_clauses(alloc, tokens, 0) {
        Ok(found) => found,
        Err(refused) => return Err(unfit(source, tokens, refused)),
    };
    match parse_directives(alloc, tokens, end) {
        Ok(directives) => Ok(Written { main, directives }),
        Err(refused) => Err(unfit(source, tokens, refused)),
    }
}

/// The main body and the directives of a source; or why it has none.
pub fn read_source(alloc: Global, source: &[u8]) -> Result<Written, SourceRefused>
    ensures ok { IfOk result (λ written. IsWritten source.now written.main written.directives) }
    ensures err { IfErr result (IsUnread source.now) }
{
    if source.len() > LONGEST_SOURCE {
        return Err(SourceRefused::Long);
    }
    let tokens = match scan(alloc, source) {
        Ok(tokens) => tokens,
        Err(refused) => return Err(unscanned(refused)),
    };
    if bracket_depth(tokens.as_slice()) > DEEPEST {
        return Err(SourceRefused::Deep);
    }
    read_tokens(alloc, source, tokens.as_slice())
}
