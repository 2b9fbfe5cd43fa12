// The functions that cut, pad and join texts.
ghost use Rattle.std.specs.Prelude.{◌≡◌};
ghost use Rattle.rx_answers.specs.Answers.{AnswersText};
ghost use Rattle.rx_builtin.specs.Arguments.{fits};
ghost use Rattle.rx_builtin.specs.Cutting.{cutting};

use crate::argument::{self, Kind, count, number, pad, text};
use rx_answers::Bytes;
use rx_cutfn as cutfn;
use rx_tree::Text;
use std::alloc::Global;

/// A function that cuts, pads or joins texts.
#[derive(Clone, Copy)]
pub enum Cutting {
    Center,
    Copies,
    Delstr,
    Insert,
    Left,
    Overlay,
    Reverse,
    Right,
    Substr,
}

/// Whether arguments fit a function.
pub(crate) fn fits(function: Cutting, args: &[Option<Text>]) -> bool
    ensures { result ≡ fits (cutting function).signature.needed (cutting function).signature.kinds args.now }
{
    use Kind::{Byte, Count, Text};
    match function {
        Cutting::Center | Cutting::Left | Cutting::Right => {
            argument::fits(2, &[Text, Count, Byte], args)
        }
        Cutting::Copies => argument::fits(2, &[Text, Count], args),
        Cutting::Delstr => argument::fits(2, &[Text, Count, Count], args),
        Cutting::Insert | Cutting::Overlay => {
            argument::fits(2, &[Text, Text, Count, Count, Byte], args)
        }
        Cutting::Reverse => argument::fits(1, &[Text], args),
        Cutting::Substr => argument::fits(2, &[Text, Count, Count, Byte], args),
    }
}

/// The value of a function whose arguments fit.
pub(crate) fn value(alloc: Global, function: Cutting, a: &[Option<Text>]) -> Bytes
    ensures { AnswersText result ((cutting function).value a.now) }
{
    match function {
        Cutting::Center => cutfn::center(alloc, text(1, a), count(2, a), pad(3, a)),
        Cutting::Copies => cutfn::copies(alloc, text(1, a), count(2, a)),
        Cutting::Delstr => cutfn::delstr(alloc, text(1, a), count(2, a), number(3, a)),
        Cutting::Insert => {
            let (new, target) = (text(1, a), text(2, a));
            cutfn::insert(alloc, new, target, number(3, a), number(4, a), pad(5, a))
        }
        Cutting::Left => cutfn::left(alloc, text(1, a), count(2, a), pad(3, a)),
        Cutting::Overlay => {
            let (new, target) = (text(1, a), text(2, a));
            cutfn::overlay(alloc, new, target, number(3, a), number(4, a), pad(5, a))
        }
        Cutting::Reverse => cutfn::reverse(alloc, text(1, a)),
        Cutting::Right => cutfn::right(alloc, text(1, a), count(2, a), pad(3, a)),
        Cutting::Substr => {
            cutfn::substr(alloc, text(1, a), count(2, a), number(3, a), pad(4, a))
        }
    }
}
