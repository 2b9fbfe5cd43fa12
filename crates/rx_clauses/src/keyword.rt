// The words that instructions begin with.
ghost use Rattle.std.specs.Prelude.{◌≡◌, map};
ghost use Rattle.rx_clauses.specs.Keywords as spec;

use crate::tokens::same;
use rx_tree::TokenKind;

/// The first word of an instruction that holds no other clause and may stand anywhere.
#[derive(Clone, Copy, Debug, PartialEq, Eq)]
pub enum Word {
    Say,
    Leave,
    Iterate,
    Nop,
    Call,
    Return,
    Exit,
    Signal,
    Use,
    Parse,
    Arg,
    Pull,
    Push,
    Queue,
    Drop,
    Numeric,
    Guard,
    Reply,
    Forward,
    Raise,
    Trace,
}

/// The first word of an instruction.
#[derive(Clone, Copy, Debug, PartialEq, Eq)]
pub enum Keyword {
    If,
    Select,
    Do,
    Loop,
    Procedure,
    Expose,
    Other(Word),
}

const WORDS: [(&[u8], Keyword); 27] = [
    (b"SAY", Keyword::Other(Word::Say)),
    (b"IF", Keyword::If),
    (b"SELECT", Keyword::Select),
    (b"DO", Keyword::Do),
    (b"LOOP", Keyword::Loop),
    (b"LEAVE", Keyword::Other(Word::Leave)),
    (b"ITERATE", Keyword::Other(Word::Iterate)),
    (b"NOP", Keyword::Other(Word::Nop)),
    (b"CALL", Keyword::Other(Word::Call)),
    (b"RETURN", Keyword::Other(Word::Return)),
    (b"EXIT", Keyword::Other(Word::Exit)),
    (b"SIGNAL", Keyword::Other(Word::Signal)),
    (b"PROCEDURE", Keyword::Procedure),
    (b"EXPOSE", Keyword::Expose),
    (b"USE", Keyword::Other(Word::Use)),
    (b"PARSE", Keyword::Other(Word::Parse)),
    (b"ARG", Keyword::Other(Word::Arg)),
    (b"PULL", Keyword::Other(Word::Pull)),
    (b"PUSH", Keyword::Other(Word::Push)),
    (b"QUEUE", Keyword::Other(Word::Queue)),
    (b"DROP", Keyword::Other(Word::Drop)),
    (b"NUMERIC", Keyword::Other(Word::Numeric)),
    (b"GUARD", Keyword::Other(Word::Guard)),
    (b"REPLY", Keyword::Other(Word::Reply)),
    (b"FORWARD", Keyword::Other(Word::Forward)),
    (b"RAISE", Keyword::Other(Word::Raise)),
    (b"TRACE", Keyword::Other(Word::Trace)),
];

// What stands beside a name in a table.
fn beside(name: &[u8], table: &[(&[u8], Keyword)]) -> Option<Keyword>
    ensures { result ≡ spec.beside name.now (map (λ e. (e.0.now, e.1)) table.now) }
{
    let mut rest = table;
    while let [entry, behind @ ..] = rest {
        if same(entry.0, name) {
            return Some(entry.1);
        }
        rest = behind;
    }
    None
}

/// The word of an instruction that a token is, if it is one.
pub(crate) fn keyword_of(kind: &TokenKind) -> Option<Keyword>
    ensures { result ≡ spec.keyword_of kind.now }
{
    match kind {
        TokenKind::Simple(name) => beside(name.bytes(), &WORDS),
        _ => None,
    }
}
