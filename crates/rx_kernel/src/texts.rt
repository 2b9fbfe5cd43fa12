// Texts of values and names.
ghost use Rattle.std.specs.Prelude.{◌≡◌, ◌≤◌, ℕ, List, length, IfOk, Some};
ghost use Rattle.std.specs.Str.{str_to_ascii_uppercase};
ghost use Rattle.rx_tree.specs.Bytes.{longest};
ghost use Rattle.rx_names.specs.Deriving.{spelled, text_of};

use itoa::Buffer;
use rx_text::upper;
use rx_tree::{Derived, OutOfMemory, Text, Value};
use std::alloc::Global;

/// The text of a value, in which an object counts as `object n`.
pub(crate) fn value_text(alloc: Global, value: &Value) -> Result<Text, OutOfMemory>
    ensures { (own : List ℕ) → IfOk result (λ text. text ≡ text_of (Some value.now) own) }
{
    match value {
        Value::Str(text) => text.share(),
        Value::Ref(object) => {
            let mut buffer = Buffer::new();
            let mut text = Vec::from_slice(alloc, b"object ")?;
            text.extend_from_slice(buffer.format(*object).as_bytes())?;
            Text::from_slice(alloc, text.as_slice())
        }
    }
}

/// A name as it is spelled.
pub(crate) fn spelled_text(alloc: Global, name: &Derived) -> Result<Text, OutOfMemory>
    requires short { length (spelled name.now) ≤ longest }
    ensures { IfOk result (λ text. text ≡ spelled name.now) }
{
    match name {
        Derived::Simple(text) => text.share(),
        Derived::Stem(stem) => stem.share(),
        Derived::Compound(stem, tail) => {
            let mut text = Vec::from_slice(alloc, stem.bytes())?;
            text.extend_from_slice(tail.bytes())?;
            Text::from_slice(alloc, text.as_slice())
        }
    }
}

/// A text in upper case.
pub(crate) fn upper_text(alloc: Global, text: &Text) -> Result<Text, OutOfMemory>
    ensures { IfOk result (λ upper. upper ≡ str_to_ascii_uppercase text.now) }
{
    match upper(alloc, text.bytes()) {
        Ok(upper) => Text::from_slice(alloc, upper.as_slice()),
        Err(_) => Err(OutOfMemory),
    }
}

/// A text of some bytes of another one.
pub(crate) fn piece_text(alloc: Global, bytes: &[u8]) -> Result<Text, OutOfMemory>
    ensures { IfOk result (λ text. text ≡ bytes.now) }
{
    // It never comes: they are no more than those of that text.
    if bytes.len() > Text::LONGEST {
        return Err(OutOfMemory);
    }
    Text::from_slice(alloc, bytes)
}
