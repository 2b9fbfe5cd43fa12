// The arguments of native methods.
ghost use Rattle.std.specs.Prelude.{◌≡◌, ◌<◌, ◌≤◌, IfOk, MatchResult, Ok, Err};
ghost use Rattle.rx_heap.specs.Arrays.{most_places};
ghost use Rattle.rx_native.specs.Arguments as spec;

use crate::answer::INCORRECT_METHOD_CALL;
use rx_heap::Heap;
use rx_tree::{Text, Value};
use rx_whole::{Numeral, read_number};

/// No argument.
pub(crate) fn no_argument(args: &[Option<Value>]) -> Result<(), u8>
    ensures { result ≡ spec.no_argument args.now }
{
    match args {
        [] => Ok(()),
        _ => Err(INCORRECT_METHOD_CALL),
    }
}

/// A value.
pub(crate) fn value_alone(args: &[Option<Value>]) -> Result<&Value, u8>
    ensures { MatchResult result
        (λ value. spec.value_alone args.now ≡ Ok value.now)
        (λ number. spec.value_alone args.now ≡ Err number) }
{
    match args {
        [Some(value)] => Ok(value),
        _ => Err(INCORRECT_METHOD_CALL),
    }
}

/// Two values.
pub(crate) fn two_values(args: &[Option<Value>]) -> Result<(&Value, &Value), u8>
    ensures { MatchResult result
        (λ both. spec.two_values args.now ≡ Ok (both.0.now, both.1.now))
        (λ number. spec.two_values args.now ≡ Err number) }
{
    match args {
        [Some(first), Some(second)] => Ok((first, second)),
        _ => Err(INCORRECT_METHOD_CALL),
    }
}

/// A name: a string.
pub(crate) fn name_of(value: &Value) -> Result<&Text, u8>
    ensures { MatchResult result
        (λ name. spec.name_of value.now ≡ Ok name.now)
        (λ number. spec.name_of value.now ≡ Err number) }
{
    match value {
        Value::Str(text) => Ok(text),
        Value::Ref(_) => Err(INCORRECT_METHOD_CALL),
    }
}

// A number that is at least one and at most the greatest index of an Array.
fn number_from(least: u32, value: &Value) -> Result<u32, u8>
    ensures { result ≡ spec.number_within least most_places value.now }
{
    let Value::Str(text) = value else {
        return Err(INCORRECT_METHOD_CALL);
    };
    match read_number(text.bytes()) {
        Numeral::Whole(number)
            if number >= i64::from(least) && number <= i64::from(Heap::MOST_PLACES) => {
            Ok(number as u32)
        }
        _ => Err(INCORRECT_METHOD_CALL),
    }
}

/// An index of an Array.
pub(crate) fn index_of(value: &Value) -> Result<u32, u8>
    ensures index { result ≡ spec.index_of value.now }
    ensures within { IfOk result (λ i. (0 < i) × (i ≤ most_places)) }
{
    number_from(1, value)
}

/// An index of an Array, alone.
pub(crate) fn index_alone(args: &[Option<Value>]) -> Result<u32, u8>
    ensures index { result ≡ spec.index_alone args.now }
    ensures within { IfOk result (λ i. (0 < i) × (i ≤ most_places)) }
{
    index_of(value_alone(args)?)
}

/// A name, alone.
pub(crate) fn name_alone(args: &[Option<Value>]) -> Result<&Text, u8>
    ensures { MatchResult result
        (λ name. spec.name_alone args.now ≡ Ok name.now)
        (λ number. spec.name_alone args.now ≡ Err number) }
{
    name_of(value_alone(args)?)
}

/// A value, and an index.
pub(crate) fn value_and_index(args: &[Option<Value>]) -> Result<(&Value, u32), u8>
    ensures put { MatchResult result
        (λ put. spec.value_and_index args.now ≡ Ok (put.0.now, put.1))
        (λ number. spec.value_and_index args.now ≡ Err number) }
    ensures within { IfOk result (λ put. (0 < put.1) × (put.1 ≤ most_places)) }
{
    let (value, i) = two_values(args)?;
    Ok((value, index_of(i)?))
}

/// A value, and a name.
pub(crate) fn value_and_name(args: &[Option<Value>]) -> Result<(&Value, &Text), u8>
    ensures { MatchResult result
        (λ put. spec.value_and_name args.now ≡ Ok (put.0.now, put.1.now))
        (λ number. spec.value_and_name args.now ≡ Err number) }
{
    let (value, name) = two_values(args)?;
    Ok((value, name_of(name)?))
}

/// A size of an Array, which may be left out.
pub(crate) fn size_alone(args: &[Option<Value>]) -> Result<u32, u8>
    ensures size { result ≡ spec.size_alone args.now }
    ensures within { IfOk result (λ size. size ≤ most_places) }
{
    match args {
        [] | [None] => Ok(0),
        [Some(size)] => number_from(0, size),
        _ => Err(INCORRECT_METHOD_CALL),
    }
}

/// A name, and any arguments behind it.
pub(crate) fn name_and_rest(args: &[Option<Value>]) -> Result<(&Text, &[Option<Value>]), u8>
    ensures { MatchResult result
        (λ sent. spec.name_and_rest args.now ≡ Ok (sent.0.now, sent.1.now))
        (λ number. spec.name_and_rest args.now ≡ Err number) }
{
    match args {
        [Some(name), rest @ ..] => Ok((name_of(name)?, rest)),
        _ => Err(INCORRECT_METHOD_CALL),
    }
}
