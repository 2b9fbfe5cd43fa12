// Tokens and operators.
use crate::name::Part;
use crate::text::Text;
use sqlite_items::Items;

/// An operator. Spellings that mean the same share one.
#[derive(Clone, Copy, Debug, PartialEq, Eq)]
pub enum Oper {
    /// `+`
    Plus,
    /// `-`
    Minus,
    /// `*`
    Times,
    /// `/`
    Divide,
    /// `%`
    Quotient,
    /// `//`
    Remainder,
    /// `**`
    Power,
    /// `||`
    Concat,
    /// `=`
    Equal,
    /// `\=`, `<>`, `><`
    NotEqual,
    /// `>`
    Greater,
    /// `<`
    Less,
    /// `>=`, `\<`
    GreaterOrEqual,
    /// `<=`, `\>`
    LessOrEqual,
    /// `==`
    StrictEqual,
    /// `\==`
    StrictNotEqual,
    /// `>>`
    StrictGreater,
    /// `<<`
    StrictLess,
    /// `>>=`
    StrictGreaterOrEqual,
    /// `<<=`
    StrictLessOrEqual,
    /// `&`
    And,
    /// `|`
    Or,
    /// `&&`
    ExclusiveOr,
    /// `\`
    Not,
    /// `~`
    Send,
    /// `~~`
    SendBack,
    /// A join of two operands with a blank between them. It stands in trees alone.
    Blank,
    /// A join of two operands side by side. It stands in trees alone.
    Abuttal,
}

/// What a token of a source is. Letters of symbols are in upper case.
#[derive(Drop)]
pub enum TokenKind {
    /// A symbol that may name a simple variable.
    Simple(Text),
    /// A symbol that may name a stem, with its period.
    Stem(Text),
    /// A symbol that may name a compound variable: its stem with the period, and the parts of its tail.
    Compound(Text, Items<Part>),
    /// A symbol that begins with a digit, or with a period and a digit.
    Constant(Text),
    /// A symbol that begins with another period and has more behind it.
    Environment(Text),
    /// A string, by its text.
    Quoted(Text),
    Operator(Oper),
    LeftParen,
    RightParen,
    LeftBracket,
    RightBracket,
    Comma,
    Colon,
    TwoColons,
    Period,
    /// The end of a clause that isn't empty.
    ClauseEnd,
}

/// A token of a source.
pub struct Token {
    pub kind: TokenKind,
    /// The line on which it begins, from 1.
    pub line: u32,
    /// Whether a blank stands between it and the token before.
    pub blank: bool,
}

impl Drop for Token {
    fn drop(self) {
        let Token {
            kind: _,
            line: _,
            blank: _,
        } = self;
    }
}
