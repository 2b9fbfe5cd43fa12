// What tokens are between operands.
ghost use Rattle.std.specs.Prelude.{◌≡◌, ◌≤◌};
ghost use Rattle.std.specs.Str.{bytes_eq};
ghost use Rattle.rx_tree.specs.StopWords as stop;
ghost use Rattle.rx_tree.specs.Operators as spec;
ghost use Rattle.rx_exprs.specs.Marks.{opening_of, end_of};
ghost use Rattle.rx_exprs.specs.Reads.{IsJoint};

use rx_tree::{Oper, Stops, TokenKind};

/// How a message begins: by `~` or `~~`, of which the second gives the receiver, or by a bracket.
#[derive(Clone, Copy, Debug, PartialEq, Eq)]
pub enum Opening {
    /// Whether it is `~~`.
    Tilde(bool),
    Bracket,
}

/// Which brackets arguments stand in.
#[derive(Clone, Copy, Debug, PartialEq, Eq)]
pub enum Bracketed {
    Round,
    Square,
}

/// What ends an argument: a comma, or the bracket that closes the list.
#[derive(Clone, Copy, Debug, PartialEq, Eq)]
pub enum End {
    Comma,
    Close,
}

/// What stands behind an operand: no operator, one whose right operand begins here, or one whose right operand stands
/// behind this token.
#[derive(Clone, Copy, Debug, PartialEq, Eq)]
pub enum Joint {
    Nothing,
    Here(Oper),
    Behind(Oper),
}

/// The level of an operator.
pub fn level(oper: Oper) -> u8
    ensures value { result ≡ spec.level oper }
    ensures small { result ≤ 10 }
{
    match oper {
        Oper::Power => 3,
        Oper::Times | Oper::Divide | Oper::Quotient | Oper::Remainder => 4,
        Oper::Plus | Oper::Minus => 5,
        Oper::Concat | Oper::Blank | Oper::Abuttal => 6,
        Oper::Equal
        | Oper::NotEqual
        | Oper::Greater
        | Oper::Less
        | Oper::GreaterOrEqual
        | Oper::LessOrEqual
        | Oper::StrictEqual
        | Oper::StrictNotEqual
        | Oper::StrictGreater
        | Oper::StrictLess
        | Oper::StrictGreaterOrEqual
        | Oper::StrictLessOrEqual => 7,
        Oper::And => 8,
        Oper::Or | Oper::ExclusiveOr => 9,
        Oper::Not | Oper::Send | Oper::SendBack => 10,
    }
}

/// The prefix operator that a token is.
pub fn sign_of(kind: &TokenKind) -> Option<Oper>
    ensures { result ≡ spec.sign_of kind.now }
{
    match kind {
        TokenKind::Operator(Oper::Plus) => Some(Oper::Plus),
        TokenKind::Operator(Oper::Minus) => Some(Oper::Minus),
        TokenKind::Operator(Oper::Not) => Some(Oper::Not),
        _ => None,
    }
}

/// How a message begins with a token, if it does.
pub fn opening_of(kind: &TokenKind) -> Option<Opening>
    ensures { result ≡ opening_of kind.now }
{
    match kind {
        TokenKind::Operator(Oper::Send) => Some(Opening::Tilde(false)),
        TokenKind::Operator(Oper::SendBack) => Some(Opening::Tilde(true)),
        TokenKind::LeftBracket => Some(Opening::Bracket),
        _ => None,
    }
}

/// How a token ends an argument in these brackets, if it does.
pub fn end_of(bracketed: Bracketed, kind: &TokenKind) -> Option<End>
    ensures { result ≡ end_of bracketed kind.now }
{
    match (bracketed, kind) {
        (_, TokenKind::Comma) => Some(End::Comma),
        (Bracketed::Round, TokenKind::RightParen) => Some(End::Close),
        (Bracketed::Square, TokenKind::RightBracket) => Some(End::Close),
        _ => None,
    }
}

fn same(word: &[u8], name: &[u8]) -> bool
    ensures { result ≡ bytes_eq word.now name.now }
{
    word == name
}

#[tactic(auto, unfolding(rx_tree::specs::StopWords::is_stop_word))]
fn is_stop_word(stops: Stops, name: &[u8]) -> bool
    ensures { result ≡ stop.is_stop_word stops name.now }
{
    match stops {
        Stops::Nothing => false,
        Stops::Then => same(b"THEN", name),
        Stops::Loop => {
            same(b"TO", name)
                || same(b"BY", name)
                || same(b"FOR", name)
                || same(b"WHILE", name)
                || same(b"UNTIL", name)
        }
        Stops::With => same(b"WITH", name),
        Stops::Raise => same(b"DESCRIPTION", name) || same(b"RETURN", name),
    }
}

/// Whether a token ends an expression that has these stop words.
pub fn is_stop(stops: Stops, kind: &TokenKind) -> bool
    ensures { result ≡ stop.is_stop stops kind.now }
{
    match kind {
        TokenKind::Simple(name) => is_stop_word(stops, name.bytes()),
        _ => false,
    }
}

fn join(blank: bool) -> Oper
    ensures { result ≡ spec.join blank }
{
    if blank { Oper::Blank } else { Oper::Abuttal }
}

/// What a token is behind an operand; the truth says whether a blank stands before it.
pub fn joint_of(kind: &TokenKind, blank: bool) -> Joint
    ensures { IsJoint (λ here behind. spec.joint_of kind.now blank here behind) result }
{
    match kind {
        TokenKind::Operator(oper) => match *oper {
            Oper::Not => Joint::Here(join(blank)),
            Oper::Send | Oper::SendBack | Oper::Blank | Oper::Abuttal => Joint::Nothing,
            other => Joint::Behind(other),
        },
        TokenKind::Simple(_)
        | TokenKind::Stem(_)
        | TokenKind::Compound(..)
        | TokenKind::Constant(_)
        | TokenKind::Environment(_)
        | TokenKind::Quoted(_)
        | TokenKind::LeftParen => Joint::Here(join(blank)),
        _ => Joint::Nothing,
    }
}
