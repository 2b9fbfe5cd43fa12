// Names with the values of their tail parts in place of these.
ghost use Rattle.std.specs.Prelude.{◌≡◌, ◌≤◌, ◌<◌, ◌+◌, ◌++◌, length, IfOk};
ghost use Rattle.std.specs.Option.{option_copied};
ghost use Rattle.std.specs.Str.{bytes_eq};
ghost use Rattle.rx_eval.specs.Reading as spec;
ghost use Rattle.rx_eval.specs.Naming.{IsShort, Tails};
ghost use Rattle.rx_eval.specs.Values as values;

use crate::reads::Reads;
use itoa::Buffer;
use rx_tree::{Derived, Name, OutOfMemory, Part, Text, Value};
use sqlite_items::Items;
use std::alloc::Global;

/// What a name comes to once the values of its tail parts stand in place of these.
#[derive(Drop)]
pub enum Named {
    /// A derived name.
    Known(Derived),
    /// A variable in its tail has no value, and NOVALUE is trapped.
    Missing(Text),
    /// It would have more bytes than a text may have.
    TooLong,
}

fn same_text(a: &Text, b: &Text) -> bool
    ensures { result ≡ bytes_eq a.now b.now }
{
    a.bytes() == b.bytes()
}

/// Whether two names are one.
pub(crate) fn same_name(a: &Derived, b: &Derived) -> bool
    ensures { result ≡ values.same_name a.now b.now }
{
    match (a, b) {
        (Derived::Simple(a), Derived::Simple(b)) | (Derived::Stem(a), Derived::Stem(b)) => {
            same_text(a, b)
        }
        (Derived::Compound(a, s), Derived::Compound(b, t)) => same_text(a, b) && same_text(s, t),
        _ => false,
    }
}

// A value as a part of a tail.
fn value_text(alloc: Global, value: &Value) -> Result<Text, OutOfMemory>
    ensures { IfOk result (λ text. text ≡ spec.value_text value.now) }
{
    match value {
        Value::Str(text) => text.share(),
        Value::Ref(object) => {
            let mut buffer = Buffer::new();
            let mut text = Vec::from_slice(alloc, b"object ")?;
            text.extend_from_slice(buffer.format(*object).as_bytes())?;
            Text::from_slice(alloc, text.as_slice())
        }
    }
}

// What a variable in a tail stands for, or else its name.
fn or_own(
    alloc: Global,
    novalue: bool,
    name: &Text,
    value: Option<&Value>,
) -> Result<Result<Text, Text>, OutOfMemory>
    ensures { IfOk result (λ text. text ≡ spec.or_own novalue name.now (option_copied value.entry)) }
{
    match value {
        Some(value) => {
            let text = value_text(alloc, value)?;
            Ok(Ok(text))
        }
        None => {
            let name = name.share()?;
            Ok(if novalue { Err(name) } else { Ok(name) })
        }
    }
}

// What a part of a tail stands for. The value of a variable is sought at a place first.
fn part_text(
    alloc: Global,
    novalue: bool,
    reads: &Reads,
    place: usize,
    part: &Part,
) -> Result<Result<Text, Text>, OutOfMemory>
    ensures { IfOk result (λ text. text ≡ spec.part_text novalue (values.read reads.now) part.now) }
{
    match part {
        Part::Fixed(text) => {
            let text = text.share()?;
            Ok(Ok(text))
        }
        Part::Of(name) => {
            let variable = Derived::Simple(name.share()?);
            or_own(alloc, novalue, name, reads.get(place, &variable))
        }
    }
}

// The texts of all parts, or the first variable that stands for nothing. The values of the variables are sought at these places
// first.
fn part_texts(
    alloc: Global,
    novalue: bool,
    reads: &Reads,
    places: &[usize],
    parts: &[Part],
) -> Result<Result<Items<Text>, Text>, OutOfMemory>
    ensures { IfOk result (λ texts. texts ≡ spec.part_texts novalue (values.read reads.now) parts.now) }
{
    let mut places = places.iter();
    let mut texts = Items::new(alloc);
    for part in parts {
        let place = match part {
            Part::Of(_) => places.next().copied().unwrap_or(0),
            Part::Fixed(_) => 0,
        };
        match part_text(alloc, novalue, reads, place, part)? {
            Ok(text) => texts.push(text)?,
            Err(name) => return Ok(Err(name)),
        }
    }
    Ok(Ok(texts))
}

// Texts behind another with periods between them, if they have at most `room` bytes.
fn tail_behind(
    alloc: Global,
    first: &Text,
    texts: &[Text],
    room: usize,
) -> Result<Option<Vec<u8>>, OutOfMemory>
    requires { room ≤ Text.LONGEST }
    ensures { IfOk result (λ tail. Tails tail room (first.now ++ spec.behind_periods texts.now)) }
{
    if first.bytes().len() > room {
        return Ok(None);
    }
    let mut tail = Vec::from_slice(alloc, first.bytes())?;
    for text in texts {
        if tail.len() + 1 + text.bytes().len() > room {
            return Ok(None);
        }
        tail.push(b'.')?;
        tail.extend_from_slice(text.bytes())?;
    }
    Ok(Some(tail))
}

// Texts with periods between them, if they have at most `room` bytes.
fn tail_of(alloc: Global, texts: &[Text], room: usize) -> Result<Option<Vec<u8>>, OutOfMemory>
    requires { room ≤ Text.LONGEST }
    ensures { IfOk result (λ tail. Tails tail room (spec.with_periods texts.now)) }
{
    match texts {
        [] => Ok(Some(Vec::new(alloc))),
        [first, rest @ ..] => tail_behind(alloc, first, rest, room),
    }
}

// A compound name of a stem and the texts of its tail.
fn compound(alloc: Global, stem: &Text, texts: &[Text]) -> Result<Named, OutOfMemory>
    ensures name { IfOk result (λ named. named ≡ spec.compound stem.now (spec.with_periods texts.now)) }
    ensures short { IfOk result IsShort }
{
    let room = Text::LONGEST - stem.bytes().len();
    match tail_of(alloc, texts, room)? {
        None => Ok(Named::TooLong),
        Some(tail) => {
            let tail = Text::from_slice(alloc, tail.as_slice())?;
            Ok(Named::Known(Derived::Compound(stem.share()?, tail)))
        }
    }
}

/// What a name comes to once the values of its tail parts stand in place of these. Each value is sought at a place first.
pub(crate) fn derive(
    alloc: Global,
    novalue: bool,
    reads: &Reads,
    places: &[usize],
    name: &Name,
) -> Result<Named, OutOfMemory>
    ensures name { IfOk result (λ named. named ≡ spec.derive novalue (values.read reads.now) name.now) }
    ensures short { IfOk result IsShort }
{
    match name {
        Name::Simple(name) => Ok(Named::Known(Derived::Simple(name.share()?))),
        Name::Stem(stem) => Ok(Named::Known(Derived::Stem(stem.share()?))),
        Name::Compound(stem, parts) => {
            match part_texts(alloc, novalue, reads, places, parts.as_slice())? {
                Ok(texts) => compound(alloc, stem, texts.as_slice()),
                Err(name) => Ok(Named::Missing(name)),
            }
        }
    }
}
