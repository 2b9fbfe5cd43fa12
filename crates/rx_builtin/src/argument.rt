// The arguments of a call: of which kinds they are, and what they say.
ghost use Rattle.std.specs.Prelude.{◌≡◌, ◌≤◌, option_copied};
ghost use Rattle.rx_builtin.specs.Arguments.{argument, byte, byte_of, count, count_of, fits, is_in_range, may_be_omitted, number, pad, text};

use rx_tree::Text;
use rx_whole::{Numeral, read_number};

/// Which arguments stand at a place.
#[derive(Clone, Copy)]
pub enum Kind {
    /// Any text.
    Text,
    /// A whole number from 0 on of at most 18 digits: a count, a length, or a place.
    Count,
    /// One byte: a pad, or the letter of an option.
    Byte,
    /// A number within DIGITS, which is never left out.
    Number,
}

// The number of a count, a length or a place.
fn count_of(text: &[u8]) -> Option<u64>
    ensures { result ≡ count_of text.now }
{
    match read_number(text) {
        Numeral::Whole(number) if number >= 0 => Some(number as u64),
        _ => None,
    }
}

// The byte of a text that has one alone.
fn byte_of(text: &[u8]) -> Option<u8>
    ensures { result ≡ byte_of text.now }
{
    match text {
        [byte] => Some(*byte),
        _ => None,
    }
}

fn is_in_range(kind: Kind, text: &[u8]) -> bool
    ensures { result ≡ is_in_range kind text.now }
{
    match kind {
        Kind::Text | Kind::Number => true,
        Kind::Count => count_of(text).is_some(),
        Kind::Byte => byte_of(text).is_some(),
    }
}

fn may_be_omitted(kind: Kind) -> bool
    ensures { result ≡ may_be_omitted kind }
{
    !matches!(kind, Kind::Number)
}

/// Whether arguments are of these kinds, in their order. The first `needed` of them are given.
pub(crate) fn fits(needed: usize, kinds: &[Kind], args: &[Option<Text>]) -> bool
    ensures { result ≡ fits needed kinds.now args.now }
{
    let mut missing = needed;
    let mut further = kinds;
    let mut rest = args;
    while let [argument, more @ ..] = rest {
        let [kind, others @ ..] = further else {
            return false;
        };
        match argument {
            Some(text) if is_in_range(*kind, text.bytes()) => missing = missing.saturating_sub(1),
            None if missing == 0 && may_be_omitted(*kind) => {}
            _ => return false,
        }
        further = others;
        rest = more;
    }
    missing == 0
}

/// The argument at a place from 1 on, if it is given.
pub(crate) fn argument(place: usize, args: &[Option<Text>]) -> Option<&[u8]>
    requires { 1 ≤ place }
    ensures { option_copied result ≡ argument place args.now }
{
    match args.get(place - 1) {
        Some(Some(text)) => Some(text.bytes()),
        _ => None,
    }
}

/// A text that is needed.
pub(crate) fn text(place: usize, args: &[Option<Text>]) -> &[u8]
    requires { 1 ≤ place }
    ensures { result.now ≡ text place args.now }
{
    argument(place, args).unwrap_or(&[])
}

/// A number, if it is given.
pub(crate) fn number(place: usize, args: &[Option<Text>]) -> Option<u64>
    requires { 1 ≤ place }
    ensures { result ≡ number place args.now }
{
    count_of(argument(place, args)?)
}

/// A number that is needed.
pub(crate) fn count(place: usize, args: &[Option<Text>]) -> u64
    requires { 1 ≤ place }
    ensures { result ≡ count place args.now }
{
    number(place, args).unwrap_or(0)
}

/// A byte, if it is given.
pub(crate) fn byte(place: usize, args: &[Option<Text>]) -> Option<u8>
    requires { 1 ≤ place }
    ensures { result ≡ byte place args.now }
{
    byte_of(argument(place, args)?)
}

/// A pad: a blank where it is left out.
pub(crate) fn pad(place: usize, args: &[Option<Text>]) -> u8
    requires { 1 ≤ place }
    ensures { result ≡ pad place args.now }
{
    byte(place, args).unwrap_or(b' ')
}
