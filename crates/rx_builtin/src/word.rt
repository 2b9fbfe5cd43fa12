// The functions on words.
ghost use Rattle.std.specs.Prelude.{◌≡◌};
ghost use Rattle.rx_answers.specs.Answers.{AnswersText};
ghost use Rattle.rx_builtin.specs.Arguments.{fits};
ghost use Rattle.rx_builtin.specs.Words.{on_words};

use crate::answer::{digits, digits_of};
use crate::argument::{self, Kind, count, number, pad, text};
use rx_answers::Bytes;
use rx_tree::Text;
use rx_wordfn as wordfn;
use std::alloc::Global;

/// A function on words.
#[derive(Clone, Copy)]
pub enum OnWords {
    Delword,
    Space,
    Subword,
    Word,
    Wordindex,
    Wordlength,
    Wordpos,
    Words,
}

/// Whether arguments fit a function.
pub(crate) fn fits(function: OnWords, args: &[Option<Text>]) -> bool
    ensures { result ≡ fits (on_words function).signature.needed (on_words function).signature.kinds args.now }
{
    use Kind::{Byte, Count, Text};
    match function {
        OnWords::Delword | OnWords::Subword => argument::fits(2, &[Text, Count, Count], args),
        OnWords::Space => argument::fits(1, &[Text, Count, Byte], args),
        OnWords::Word | OnWords::Wordindex | OnWords::Wordlength => {
            argument::fits(2, &[Text, Count], args)
        }
        OnWords::Wordpos => argument::fits(2, &[Text, Text, Count], args),
        OnWords::Words => argument::fits(1, &[Text], args),
    }
}

/// The value of a function whose arguments fit.
pub(crate) fn value(alloc: Global, function: OnWords, a: &[Option<Text>]) -> Bytes
    ensures { AnswersText result ((on_words function).value a.now) }
{
    match function {
        OnWords::Delword => wordfn::delword(alloc, text(1, a), count(2, a), number(3, a)),
        OnWords::Space => wordfn::space(alloc, text(1, a), number(2, a), pad(3, a)),
        OnWords::Subword => wordfn::subword(alloc, text(1, a), count(2, a), number(3, a)),
        OnWords::Word => wordfn::word(alloc, text(1, a), count(2, a)),
        OnWords::Wordindex => digits_of(alloc, wordfn::wordindex(text(1, a), count(2, a))),
        OnWords::Wordlength => digits_of(alloc, wordfn::wordlength(text(1, a), count(2, a))),
        OnWords::Wordpos => {
            let place = wordfn::wordpos(alloc, text(1, a), text(2, a), number(3, a));
            digits_of(alloc, place)
        }
        OnWords::Words => digits(alloc, wordfn::words(text(1, a))),
    }
}
