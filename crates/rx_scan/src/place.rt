// What the scanner knows of the place that it has reached.
ghost use Rattle.std.specs.Prelude.{◌≡◌, ◌+◌, ◌<◌, ◌^◌, ◌||◌, false, if◌then◌else◌};
ghost use Rattle.rx_tree.specs.Spelling.{is_minus, may_continue, is_clause_end, first_place, token_at, clause_end_at, token_of, place_behind};
ghost use Rattle.rx_scan.specs.Read.{kind_of, place_of};

use crate::piece::Piece;
use rx_tree::{Oper, Token, TokenKind};

/// A place between two pieces of a source.
#[derive(Clone, Copy)]
pub struct Place {
    /// Its line, from 1.
    pub line: u32,
    /// Whether a blank, or a dropped comma or hyphen, stands between it and the token before.
    pub blank: bool,
    /// Whether the clause has a token.
    pub has_token: bool,
    /// Whether the line's last token was dropped, so that its end ends no clause.
    pub continued: bool,
}

/// Whether this token continues a line that it ends.
pub fn may_continue(kind: &TokenKind) -> bool
    ensures { result ≡ may_continue kind.now }
{
    matches!(kind, TokenKind::Comma | TokenKind::Operator(Oper::Minus))
}

impl Place {
    /// The place before a source.
    pub fn first() -> Place
        ensures { place_of result ≡ first_place }
    {
        Place {
            line: 1,
            blank: false,
            has_token: false,
            continued: false,
        }
    }

    // A token of this kind here.
    fn token(self, kind: TokenKind) -> Token
        ensures { result ≡ token_at (place_of self) kind }
    {
        Token {
            kind,
            line: self.line,
            blank: self.blank,
        }
    }

    /// The end of a clause here, where one ends.
    pub fn clause_end(self, ends: bool) -> Option<Token>
        ensures { result ≡ clause_end_at (place_of self) ends }
    {
        if ends {
            Some(self.token(TokenKind::ClauseEnd))
        } else {
            None
        }
    }

    // The place behind a token that stands here, in which this many lines end.
    fn behind_token(self, lines: u32, has_token: bool) -> Place
        requires { self.line + lines < 2 ^ 32 }
        ensures { result ≡ record { line = self.line + lines; blank = false; has_token = has_token; continued = false } }
    {
        Place {
            line: self.line + lines,
            blank: false,
            has_token,
            continued: false,
        }
    }

    // The place behind a piece that is no token.
    fn behind_gap(self, lines: u32, blank: bool, continued: bool) -> Place
        requires { self.line + lines < 2 ^ 32 }
        ensures { result ≡ record { line = self.line + lines; blank = self.blank || blank; has_token = self.has_token; continued = continued } }
    {
        Place {
            line: self.line + lines,
            blank: self.blank || blank,
            has_token: self.has_token,
            continued,
        }
    }

    // The end of a clause, or of an empty one, and the place behind it.
    fn pass_clause_end(self, lines: u32, ends: bool, continued: bool) -> (Option<Token>, Place)
        requires { self.line + lines < 2 ^ 32 }
        ensures token { result.0 ≡ clause_end_at (place_of self) ends }
        ensures behind { result.1 ≡ (if ends then record { line = self.line + lines; blank = false; has_token = false; continued = false } else record { line = self.line + lines; blank = self.blank; has_token = self.has_token; continued = continued }) }
    {
        let token = self.clause_end(ends);
        if ends {
            return (token, self.behind_token(lines, false));
        }
        (token, self.behind_gap(lines, false, continued))
    }

    /// The token that a piece here is, if it is one, and the place behind it. The piece has this many line ends, and
    /// `at_end` says whether a line ends in front of what follows.
    pub fn pass(self, piece: Piece, lines: u32, at_end: bool) -> (Option<Token>, Place)
        requires { self.line + lines < 2 ^ 32 }
        ensures token { result.0 ≡ token_of (place_of self) (kind_of piece) at_end }
        ensures behind { place_of result.1 ≡ place_behind (place_of self) (kind_of piece) lines result.0 }
    {
        match piece {
            Piece::Blank => (None, self.behind_gap(lines, true, self.continued)),
            Piece::Nothing => (None, self.behind_gap(lines, false, self.continued)),
            Piece::LineEnd => self.pass_clause_end(lines, self.has_token && !self.continued, false),
            Piece::Semicolon => self.pass_clause_end(lines, self.has_token, self.continued),
            Piece::Written(kind) => {
                if may_continue(&kind) && at_end {
                    return (None, self.behind_gap(lines, true, true));
                }
                let is_end = matches!(kind, TokenKind::ClauseEnd);
                (Some(self.token(kind)), self.behind_token(lines, !is_end))
            }
        }
    }
}
