// Which operators do what, and what they are called as messages.
ghost use Rattle.std.specs.Prelude.{◌≡◌, ◌≤◌, length};
ghost use Rattle.rx_operators.specs.Families as spec;

use rx_tree::Oper;

/// An operator on numbers.
#[derive(Clone, Copy, Debug, PartialEq, Eq)]
pub enum Arithmetic {
    /// `+`
    Add,
    /// `-`
    Subtract,
    /// `*`
    Multiply,
    /// `/`
    Divide,
    /// `%`
    Quotient,
    /// `//`
    Remainder,
    /// `**`
    Power,
}

/// A comparison.
#[derive(Clone, Copy, Debug, PartialEq, Eq)]
pub enum Comparison {
    /// `=` or `==`
    Equal,
    /// `\=` or `\==`
    NotEqual,
    /// `>` or `>>`
    Greater,
    /// `<` or `<<`
    Less,
    /// `>=` or `>>=`
    GreaterOrEqual,
    /// `<=` or `<<=`
    LessOrEqual,
}

/// An operator on logical values.
#[derive(Clone, Copy, Debug, PartialEq, Eq)]
pub enum Connective {
    /// `&`
    And,
    /// `|`
    Or,
    /// `&&`
    ExclusiveOr,
}

/// What an operator between two operands does.
#[derive(Clone, Copy, Debug, PartialEq, Eq)]
pub enum Family {
    /// It takes two numbers and gives one.
    Arithmetic(Arithmetic),
    /// It tells the order of two numbers, or of two texts without their outer blanks.
    Comparison(Comparison),
    /// It tells the order of two texts by their bytes.
    StrictComparison(Comparison),
    /// It takes two logical values and gives one.
    Logic(Connective),
    /// It joins two strings.
    Join,
    /// It joins two strings with a blank between them.
    BlankJoin,
    /// It stands between no operands.
    NotBetween,
}

/// The family of an operator between two operands.
pub fn family_of(oper: Oper) -> Family
    ensures family { result ≡ spec.family oper }
{
    match oper {
        Oper::Plus => Family::Arithmetic(Arithmetic::Add),
        Oper::Minus => Family::Arithmetic(Arithmetic::Subtract),
        Oper::Times => Family::Arithmetic(Arithmetic::Multiply),
        Oper::Divide => Family::Arithmetic(Arithmetic::Divide),
        Oper::Quotient => Family::Arithmetic(Arithmetic::Quotient),
        Oper::Remainder => Family::Arithmetic(Arithmetic::Remainder),
        Oper::Power => Family::Arithmetic(Arithmetic::Power),
        Oper::Equal => Family::Comparison(Comparison::Equal),
        Oper::NotEqual => Family::Comparison(Comparison::NotEqual),
        Oper::Greater => Family::Comparison(Comparison::Greater),
        Oper::Less => Family::Comparison(Comparison::Less),
        Oper::GreaterOrEqual => Family::Comparison(Comparison::GreaterOrEqual),
        Oper::LessOrEqual => Family::Comparison(Comparison::LessOrEqual),
        Oper::StrictEqual => Family::StrictComparison(Comparison::Equal),
        Oper::StrictNotEqual => Family::StrictComparison(Comparison::NotEqual),
        Oper::StrictGreater => Family::StrictComparison(Comparison::Greater),
        Oper::StrictLess => Family::StrictComparison(Comparison::Less),
        Oper::StrictGreaterOrEqual => Family::StrictComparison(Comparison::GreaterOrEqual),
        Oper::StrictLessOrEqual => Family::StrictComparison(Comparison::LessOrEqual),
        Oper::And => Family::Logic(Connective::And),
        Oper::Or => Family::Logic(Connective::Or),
        Oper::ExclusiveOr => Family::Logic(Connective::ExclusiveOr),
        Oper::Concat | Oper::Abuttal => Family::Join,
        Oper::Blank => Family::BlankJoin,
        Oper::Not | Oper::Send | Oper::SendBack => Family::NotBetween,
    }
}

/// Whether an operator joins two strings. An object is asked for its string then; any other operator is a message to it.
pub fn is_join(oper: Oper) -> bool
    ensures join { result ≡ spec.is_join oper }
{
    matches!(family_of(oper), Family::Join | Family::BlankJoin)
}

/// The name of the message that an operator is to an object.
pub fn message_name(oper: Oper) -> &'static [u8]
    ensures name { result.now ≡ spec.message_name oper }
    ensures short { length result.now ≤ 3 }
{
    match oper {
        Oper::Plus => b"+",
        Oper::Minus => b"-",
        Oper::Times => b"*",
        Oper::Divide => b"/",
        Oper::Quotient => b"%",
        Oper::Remainder => b"//",
        Oper::Power => b"**",
        Oper::Equal => b"=",
        Oper::NotEqual => b"\\=",
        Oper::Greater => b">",
        Oper::Less => b"<",
        Oper::GreaterOrEqual => b">=",
        Oper::LessOrEqual => b"<=",
        Oper::StrictEqual => b"==",
        Oper::StrictNotEqual => b"\\==",
        Oper::StrictGreater => b">>",
        Oper::StrictLess => b"<<",
        Oper::StrictGreaterOrEqual => b">>=",
        Oper::StrictLessOrEqual => b"<<=",
        Oper::And => b"&",
        Oper::Or => b"|",
        Oper::ExclusiveOr => b"&&",
        Oper::Not => b"\\",
        Oper::Concat => b"||",
        Oper::Blank => b" ",
        Oper::Abuttal => b"",
        Oper::Send => b"~",
        Oper::SendBack => b"~~",
    }
}
