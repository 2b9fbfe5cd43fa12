// The functions by their names.
ghost use Rattle.std.specs.Prelude.{◌≡◌, find, option_map};
ghost use Rattle.std.specs.Str.{bytes_eq};
ghost use Rattle.rx_builtin.specs.Functions.{function_named};

use crate::changing::Changing;
use crate::conversion::Conversion;
use crate::cutting::Cutting;
use crate::frame::OfFrame;
use crate::number::OnNumbers;
use crate::searching::Searching;
use crate::word::OnWords;

/// A built-in function, in its family.
#[derive(Clone, Copy)]
pub enum Function {
    Changing(Changing),
    Conversion(Conversion),
    Cutting(Cutting),
    Frame(OfFrame),
    Number(OnNumbers),
    Searching(Searching),
    Word(OnWords),
}

const NAMES: [(&[u8], Function); 48] = [
    (b"ABBREV", Function::Searching(Searching::Abbrev)),
    (b"ABS", Function::Number(OnNumbers::Abs)),
    (b"ARG", Function::Frame(OfFrame::Arg)),
    (b"B2X", Function::Conversion(Conversion::B2x)),
    (b"C2D", Function::Conversion(Conversion::C2d)),
    (b"C2X", Function::Conversion(Conversion::C2x)),
    (b"CENTER", Function::Cutting(Cutting::Center)),
    (b"CHANGESTR", Function::Changing(Changing::Changestr)),
    (b"COMPARE", Function::Searching(Searching::Compare)),
    (b"CONDITION", Function::Frame(OfFrame::Condition)),
    (b"COPIES", Function::Cutting(Cutting::Copies)),
    (b"COUNTSTR", Function::Searching(Searching::Countstr)),
    (b"D2C", Function::Conversion(Conversion::D2c)),
    (b"D2X", Function::Conversion(Conversion::D2x)),
    (b"DATATYPE", Function::Conversion(Conversion::Datatype)),
    (b"DELSTR", Function::Cutting(Cutting::Delstr)),
    (b"DELWORD", Function::Word(OnWords::Delword)),
    (b"DIGITS", Function::Frame(OfFrame::Digits)),
    (b"INSERT", Function::Cutting(Cutting::Insert)),
    (b"LASTPOS", Function::Searching(Searching::Lastpos)),
    (b"LEFT", Function::Cutting(Cutting::Left)),
    (b"LENGTH", Function::Searching(Searching::Length)),
    (b"LOWER", Function::Changing(Changing::Lower)),
    (b"MAX", Function::Number(OnNumbers::Max)),
    (b"MIN", Function::Number(OnNumbers::Min)),
    (b"OVERLAY", Function::Cutting(Cutting::Overlay)),
    (b"POS", Function::Searching(Searching::Pos)),
    (b"QUEUED", Function::Frame(OfFrame::Queued)),
    (b"REVERSE", Function::Cutting(Cutting::Reverse)),
    (b"RIGHT", Function::Cutting(Cutting::Right)),
    (b"SIGN", Function::Number(OnNumbers::Sign)),
    (b"SOURCELINE", Function::Frame(OfFrame::Sourceline)),
    (b"SPACE", Function::Word(OnWords::Space)),
    (b"STRIP", Function::Changing(Changing::Strip)),
    (b"SUBSTR", Function::Cutting(Cutting::Substr)),
    (b"SUBWORD", Function::Word(OnWords::Subword)),
    (b"TRANSLATE", Function::Changing(Changing::Translate)),
    (b"UPPER", Function::Changing(Changing::Upper)),
    (b"VERIFY", Function::Searching(Searching::Verify)),
    (b"WORD", Function::Word(OnWords::Word)),
    (b"WORDINDEX", Function::Word(OnWords::Wordindex)),
    (b"WORDLENGTH", Function::Word(OnWords::Wordlength)),
    (b"WORDPOS", Function::Word(OnWords::Wordpos)),
    (b"WORDS", Function::Word(OnWords::Words)),
    (b"X2B", Function::Conversion(Conversion::X2b)),
    (b"X2C", Function::Conversion(Conversion::X2c)),
    (b"X2D", Function::Conversion(Conversion::X2d)),
    (b"XRANGE", Function::Conversion(Conversion::Xrange)),
];

// The function that stands beside a name in a table.
fn beside(table: &[(&[u8], Function)], name: &[u8]) -> Option<Function>
    ensures { result ≡ option_map (λ entry. entry.1) (find (λ entry. bytes_eq entry.0.now name.now) table.now) }
{
    table
        .iter()
        .find(|entry| entry.0 == name)
        .map(|entry| entry.1)
}

/// The function of a name.
pub(crate) fn function_named(name: &[u8]) -> Option<Function>
    ensures { result ≡ function_named name.now }
{
    beside(&NAMES, name)
}
