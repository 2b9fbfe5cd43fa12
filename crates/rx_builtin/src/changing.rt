// The functions that give a text with other bytes, or without some.
ghost use Rattle.std.specs.Prelude.{◌≡◌};
ghost use Rattle.rx_answers.specs.Answers.{AnswersText};
ghost use Rattle.rx_builtin.specs.Arguments.{fits};
ghost use Rattle.rx_builtin.specs.Changing.{changing};

use crate::argument::{self, Kind, argument, byte, text};
use rx_answers::Bytes;
use rx_cutfn as cutfn;
use rx_tree::Text;
use std::alloc::Global;

/// A function that gives a text with other bytes, or without some.
#[derive(Clone, Copy)]
pub enum Changing {
    Changestr,
    Lower,
    Strip,
    Translate,
    Upper,
}

/// Whether arguments fit a function.
pub(crate) fn fits(function: Changing, args: &[Option<Text>]) -> bool
    ensures { result ≡ fits (changing function).signature.needed (changing function).signature.kinds args.now }
{
    use Kind::{Byte, Text};
    match function {
        Changing::Changestr => argument::fits(3, &[Text, Text, Text], args),
        Changing::Lower | Changing::Upper => argument::fits(1, &[Text], args),
        Changing::Strip => argument::fits(1, &[Text, Byte, Byte], args),
        Changing::Translate => argument::fits(1, &[Text, Text, Text, Byte], args),
    }
}

/// The value of a function whose arguments fit.
pub(crate) fn value(alloc: Global, function: Changing, a: &[Option<Text>]) -> Bytes
    ensures { AnswersText result ((changing function).value a.now) }
{
    match function {
        Changing::Changestr => cutfn::changestr(alloc, text(1, a), text(2, a), text(3, a)),
        Changing::Lower => cutfn::lower(alloc, text(1, a)),
        Changing::Strip => cutfn::strip(alloc, text(1, a), byte(2, a), byte(3, a)),
        Changing::Translate => {
            let (output, input) = (argument(2, a), argument(3, a));
            cutfn::translate(alloc, text(1, a), output, input, byte(4, a))
        }
        Changing::Upper => cutfn::upper(alloc, text(1, a)),
    }
}
