// The name that a compound symbol stands for.
ghost use Rattle.std.specs.Prelude.{◌≡◌, ◌≤◌, ◌<◌, ◌+◌, ◌++◌, length, codes, decimal, OnOk, IfOk, Err};
ghost use Rattle.std.specs.List.{flat_map};
ghost use Rattle.std.specs.Option.{option_copied};
ghost use Rattle.rx_tree.specs.Bytes.{longest};
ghost use Rattle.rx_frames.specs.Activities.{IsBegun};
ghost use Rattle.rx_names.specs.Homes.{variables_at};
ghost use Rattle.rx_names.specs.Deriving.{derive, next_text, part_text, spelled, tail, text_of};

use crate::variables::value;
use itoa::Buffer;
use rx_frames::Stacks;
use rx_pools::Pools;
use rx_tree::{Derived, Name, OutOfMemory, Part, Text, Value};
use std::alloc::{AllocError, Global};

/// Why a name isn't derived.
#[derive(Clone, Copy, Debug, PartialEq, Eq)]
pub enum NamesRefused {
    /// It is longer than 16,777,216 bytes.
    Long,
    OutOfMemory,
}

impl From<OutOfMemory> for NamesRefused {
    ghost use Rattle.rx_names.specs.declared.tail.NamesRefused.TheVariants as refused;

    ghost from_gives = { λ _ e. e ≡ refused.OutOfMemory };

    fn from(_error: OutOfMemory) -> NamesRefused {
        NamesRefused::OutOfMemory
    }
}

impl From<AllocError> for NamesRefused {
    ghost use Rattle.rx_names.specs.declared.tail.NamesRefused.TheVariants as refused;

    ghost from_gives = { λ _ e. e ≡ refused.OutOfMemory };

    fn from(_error: AllocError) -> NamesRefused {
        NamesRefused::OutOfMemory
    }
}

// Appends a text, where at most so many bytes are there then.
fn append(bytes: &mut Vec<u8>, most: usize, text: &[u8]) -> Result<(), NamesRefused>
    requires { length bytes.old.items ≤ most }
    ensures ok { OnOk result (bytes.new.items ≡ bytes.old.items ++ text.now) }
    ensures short { OnOk result (length bytes.new.items ≤ most) }
    ensures long { result ≡ Err NamesRefused.Long → most < length bytes.old.items + length text.now }
{
    if text.len() > most - bytes.len() {
        return Err(NamesRefused::Long);
    }
    bytes.extend_from_slice(text)?;
    Ok(())
}

// Appends the text of an object.
fn append_object(bytes: &mut Vec<u8>, most: usize, object: u32) -> Result<(), NamesRefused>
    requires { length bytes.old.items ≤ most }
    ensures ok { OnOk result (bytes.new.items ≡ bytes.old.items ++ (codes "object " ++ decimal object)) }
    ensures short { OnOk result (length bytes.new.items ≤ most) }
    ensures long { result ≡ Err NamesRefused.Long
        → most < length bytes.old.items + length (codes "object " ++ decimal object) }
{
    append(bytes, most, b"object ")?;
    let mut buffer = Buffer::new();
    append(bytes, most, buffer.format(object).as_bytes())
}

// Appends what stands in a tail for a variable of this name and value.
fn append_value(
    bytes: &mut Vec<u8>,
    most: usize,
    value: Option<&Value>,
    name: &[u8],
) -> Result<(), NamesRefused>
    requires { length bytes.old.items ≤ most }
    ensures ok { OnOk result
        (bytes.new.items ≡ bytes.old.items ++ text_of (option_copied value.entry) name.now) }
    ensures short { OnOk result (length bytes.new.items ≤ most) }
    ensures long { result ≡ Err NamesRefused.Long
        → most < length bytes.old.items + length (text_of (option_copied value.entry) name.now) }
{
    match value {
        None => append(bytes, most, name),
        Some(Value::Str(text)) => append(bytes, most, text.bytes()),
        Some(Value::Ref(object)) => append_object(bytes, most, *object),
    }
}

// Appends a part of a tail.
fn append_part(
    bytes: &mut Vec<u8>,
    most: usize,
    stacks: &Stacks,
    pools: &Pools,
    a: u32,
    part: &Part,
) -> Result<(), NamesRefused>
    requires begun { IsBegun stacks.now a }
    requires room { length bytes.old.items ≤ most }
    ensures ok { OnOk result
        (bytes.new.items ≡ bytes.old.items ++ part_text (variables_at stacks.now a) pools.now part.now) }
    ensures short { OnOk result (length bytes.new.items ≤ most) }
    ensures long { result ≡ Err NamesRefused.Long
        → most < length bytes.old.items + length (part_text (variables_at stacks.now a) pools.now part.now) }
{
    match part {
        Part::Fixed(text) => append(bytes, most, text.bytes()),
        Part::Of(name) => {
            let simple = Derived::Simple(name.share()?);
            append_value(bytes, most, value(stacks, pools, a, &simple), name.bytes())
        }
    }
}

// Appends the parts of a tail behind the first.
fn append_others(
    bytes: &mut Vec<u8>,
    most: usize,
    stacks: &Stacks,
    pools: &Pools,
    a: u32,
    parts: &[Part],
) -> Result<(), NamesRefused>
    requires begun { IsBegun stacks.now a }
    requires room { length bytes.old.items ≤ most }
    ensures ok { OnOk result
        (bytes.new.items ≡ bytes.old.items ++ flat_map (next_text (variables_at stacks.now a) pools.now) parts.now) }
    ensures short { OnOk result (length bytes.new.items ≤ most) }
    ensures long { result ≡ Err NamesRefused.Long
        → most < length bytes.old.items + length (flat_map (next_text (variables_at stacks.now a) pools.now) parts.now) }
{
    for part in parts {
        append(bytes, most, b".")?;
        append_part(bytes, most, stacks, pools, a, part)?;
    }
    Ok(())
}

// The tail of some parts, which has at most so many bytes.
fn tail(
    alloc: Global,
    most: usize,
    stacks: &Stacks,
    pools: &Pools,
    a: u32,
    parts: &[Part],
) -> Result<Text, NamesRefused>
    requires begun { IsBegun stacks.now a }
    requires most { most ≤ longest }
    ensures tail { IfOk result (λ text. text ≡ tail (variables_at stacks.now a) pools.now parts.now) }
    ensures short { OnOk result (length (tail (variables_at stacks.now a) pools.now parts.now) ≤ most) }
    ensures long { result ≡ Err NamesRefused.Long
        → most < length (tail (variables_at stacks.now a) pools.now parts.now) }
{
    let mut bytes = Vec::new(alloc);
    if let [first, others @ ..] = parts {
        append_part(&mut bytes, most, stacks, pools, a, first)?;
        append_others(&mut bytes, most, stacks, pools, a, others)?;
    }
    Ok(Text::from_slice(alloc, bytes.as_slice())?)
}

/// The name that a name as it is written stands for in an activity's top frame: the variables in its tail are replaced by
/// their values. It is `Long` where this name has more than 16,777,216 bytes.
pub fn derive(
    alloc: Global,
    stacks: &Stacks,
    pools: &Pools,
    a: u32,
    name: &Name,
) -> Result<Derived, NamesRefused>
    requires begun { IsBegun stacks.now a }
    ensures derived { IfOk result (λ derived. derived ≡ derive (variables_at stacks.now a) pools.now name.now) }
    ensures short { OnOk result
        (length (spelled (derive (variables_at stacks.now a) pools.now name.now)) ≤ longest) }
    ensures long { result ≡ Err NamesRefused.Long
        → longest < length (spelled (derive (variables_at stacks.now a) pools.now name.now)) }
{
    match name {
        Name::Simple(name) => Ok(Derived::Simple(name.share()?)),
        Name::Stem(stem) => Ok(Derived::Stem(stem.share()?)),
        Name::Compound(stem, parts) => {
            let most = Text::LONGEST - stem.bytes().len();
            let tail = tail(alloc, most, stacks, pools, a, parts.as_slice())?;
            let stem = stem.share()?;
            Ok(Derived::Compound(stem, tail))
        }
    }
}
