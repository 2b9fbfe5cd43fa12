// What names come to.
ghost use Rattle.std.specs.Prelude.{◌≡◌, IfOk};
ghost use Rattle.std.specs.Option.{option_copied};
ghost use Rattle.rx_eval.specs.Naming.{HasRoom};
ghost use Rattle.rx_eval.specs.Reading as spec;

use crate::facts::Facts;
use crate::naming::{Named, derive};
use rx_tree::{Derived, Name, OutOfMemory, Text, Value};
use std::alloc::Global;

// The error of a name that would be too long: resources exhausted.
const RESOURCES_EXHAUSTED: u8 = 5;

/// What a name comes to.
#[derive(Drop)]
pub enum Reading {
    Gives(Value),
    /// A variable without a value, where NOVALUE is trapped.
    NoValue(Text),
    /// The error of this number.
    Raises(u8),
}

// A name as it is written.
fn spelling(alloc: Global, name: &Derived) -> Result<Text, OutOfMemory>
    requires { HasRoom name.now }
    ensures { IfOk result (λ text. text ≡ spec.spelling name.now) }
{
    match name {
        Derived::Simple(name) => name.share(),
        Derived::Stem(stem) => stem.share(),
        Derived::Compound(stem, tail) => {
            let mut bytes = Vec::from_slice(alloc, stem.bytes())?;
            bytes.extend_from_slice(tail.bytes())?;
            Text::from_slice(alloc, bytes.as_slice())
        }
    }
}

fn or_spelling(
    alloc: Global,
    novalue: bool,
    name: &Derived,
    value: Option<&Value>,
) -> Result<Reading, OutOfMemory>
    requires { HasRoom name.now }
    ensures { IfOk result (λ reading. reading ≡ spec.or_spelling novalue name.now (option_copied value.entry)) }
{
    match value {
        Some(value) => Ok(Reading::Gives(value.share()?)),
        None => {
            let text = spelling(alloc, name)?;
            if novalue {
                Ok(Reading::NoValue(text))
            } else {
                Ok(Reading::Gives(Value::Str(text)))
            }
        }
    }
}

/// What a variable comes to. The values of the variables in its tail, and its own, are sought at these places first.
pub(crate) fn variable(
    alloc: Global,
    facts: &Facts,
    places: &[usize],
    name: &Name,
) -> Result<Reading, OutOfMemory>
    ensures { IfOk result (λ reading. reading ≡ spec.variable facts.now name.now) }
{
    match derive(alloc, facts.novalue, &facts.reads, places, name)? {
        Named::Known(name) => {
            let place = places.last().copied().unwrap_or(0);
            or_spelling(alloc, facts.novalue, &name, facts.reads.get(place, &name))
        }
        Named::Missing(name) => Ok(Reading::NoValue(name)),
        Named::TooLong => Ok(Reading::Raises(RESOURCES_EXHAUSTED)),
    }
}

/// What an environment symbol comes to, of which an object is known or none.
pub(crate) fn environment(
    alloc: Global,
    name: &Text,
    object: Option<u32>,
) -> Result<Value, OutOfMemory>
    ensures { IfOk result (λ value. value ≡ spec.environment name.now object) }
{
    if let Some(object) = object {
        return Ok(Value::Ref(object));
    }
    let text = if name.bytes() == b".TRUE".as_slice() {
        Text::from_slice(alloc, b"1")?
    } else if name.bytes() == b".FALSE".as_slice() {
        Text::from_slice(alloc, b"0")?
    } else {
        name.share()?
    };
    Ok(Value::Str(text))
}

/// Whether a symbol is an environment symbol.
pub(crate) fn is_environment(name: &Text) -> bool
    ensures { result ≡ spec.is_environment name.now }
{
    match name.bytes() {
        [byte, ..] => *byte == b'.',
        [] => false,
    }
}

/// What the symbol of a class comes to, of which an object is known or none. Its value is sought at these places first.
pub(crate) fn symbol(
    alloc: Global,
    facts: &Facts,
    places: &[usize],
    name: &Text,
    object: Option<u32>,
) -> Result<Reading, OutOfMemory>
    ensures { IfOk result (λ reading. reading ≡ spec.symbol facts.now name.now object) }
{
    if is_environment(name) {
        return Ok(Reading::Gives(environment(alloc, name, object)?));
    }
    variable(alloc, facts, places, &Name::Simple(name.share()?))
}
