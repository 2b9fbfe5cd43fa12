// The conversions, and DATATYPE.
ghost use Rattle.std.specs.Prelude.{◌≡◌, ◌≤◌};
ghost use Rattle.rx_answers.specs.Answers.{AnswersText};
ghost use Rattle.rx_builtin.specs.Arguments.{fits};
ghost use Rattle.rx_builtin.specs.Conversions.{conversion};

use crate::answer::digits_of;
use crate::argument::{self, Kind, byte, count, text};
use rx_answers::Bytes;
use rx_convfn as convfn;
use rx_tree::Text;
use std::alloc::Global;

/// A conversion, or DATATYPE.
#[derive(Clone, Copy)]
pub enum Conversion {
    B2x,
    C2d,
    C2x,
    D2c,
    D2x,
    Datatype,
    X2b,
    X2c,
    X2d,
    Xrange,
}

/// Whether arguments fit a function.
pub(crate) fn fits(function: Conversion, args: &[Option<Text>]) -> bool
    ensures { result ≡ fits (conversion function).signature.needed (conversion function).signature.kinds args.now }
{
    use Kind::{Byte, Count, Text};
    match function {
        Conversion::D2c | Conversion::D2x => argument::fits(1, &[Count], args),
        Conversion::Datatype => argument::fits(1, &[Text, Byte], args),
        Conversion::Xrange => argument::fits(0, &[Byte, Byte], args),
        _ => argument::fits(1, &[Text], args),
    }
}

/// The value of a function whose arguments fit, under DIGITS `limit`.
pub(crate) fn value(alloc: Global, function: Conversion, a: &[Option<Text>], limit: u8) -> Bytes
    requires at_least_1 { 1 ≤ limit }
    requires at_most_18 { limit ≤ 18 }
    ensures { AnswersText result ((conversion function).value a.now limit) }
{
    match function {
        Conversion::B2x => convfn::b2x(alloc, text(1, a)),
        Conversion::C2d => digits_of(alloc, convfn::c2d(text(1, a), limit)),
        Conversion::C2x => convfn::c2x(alloc, text(1, a)),
        Conversion::D2c => convfn::d2c(alloc, count(1, a)),
        Conversion::D2x => convfn::d2x(alloc, count(1, a)),
        Conversion::Datatype => convfn::datatype(alloc, text(1, a), byte(2, a)),
        Conversion::X2b => convfn::x2b(alloc, text(1, a)),
        Conversion::X2c => convfn::x2c(alloc, text(1, a)),
        Conversion::X2d => digits_of(alloc, convfn::x2d(text(1, a), limit)),
        Conversion::Xrange => convfn::xrange(alloc, byte(1, a), byte(2, a)),
    }
}
