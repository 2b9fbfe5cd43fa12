// The functions that count, look for a place or compare.
ghost use Rattle.std.specs.Prelude.{◌≡◌};
ghost use Rattle.rx_answers.specs.Answers.{number_answer};
ghost use Rattle.rx_builtin.specs.Arguments.{fits};
ghost use Rattle.rx_builtin.specs.Searching.{searching};

use crate::argument::{self, Kind, byte, number, pad, text};
use rx_answers::Number;
use rx_cutfn as cutfn;
use rx_tree::Text;

/// A function that counts, looks for a place or compares.
#[derive(Clone, Copy)]
pub enum Searching {
    Abbrev,
    Compare,
    Countstr,
    Lastpos,
    Length,
    Pos,
    Verify,
}

/// Whether arguments fit a function.
pub(crate) fn fits(function: Searching, args: &[Option<Text>]) -> bool
    ensures { result ≡ fits (searching function).signature.needed (searching function).signature.kinds args.now }
{
    use Kind::{Byte, Count, Text};
    match function {
        Searching::Abbrev | Searching::Pos => argument::fits(2, &[Text, Text, Count], args),
        Searching::Compare => argument::fits(2, &[Text, Text, Byte], args),
        Searching::Countstr | Searching::Lastpos => argument::fits(2, &[Text, Text], args),
        Searching::Length => argument::fits(1, &[Text], args),
        Searching::Verify => argument::fits(2, &[Text, Text, Byte, Count], args),
    }
}

/// The value of a function whose arguments fit.
pub(crate) fn value(function: Searching, a: &[Option<Text>]) -> Number
    ensures { result ≡ number_answer ((searching function).value a.now) }
{
    match function {
        Searching::Abbrev => Ok(cutfn::abbrev(text(1, a), text(2, a), number(3, a))),
        Searching::Compare => Ok(cutfn::compare(text(1, a), text(2, a), pad(3, a))),
        Searching::Countstr => Ok(cutfn::countstr(text(1, a), text(2, a))),
        Searching::Lastpos => Ok(cutfn::lastpos(text(1, a), text(2, a))),
        Searching::Length => Ok(cutfn::length(text(1, a))),
        Searching::Pos => cutfn::pos(text(1, a), text(2, a), number(3, a)),
        Searching::Verify => cutfn::verify(text(1, a), text(2, a), byte(3, a), number(4, a)),
    }
}
