// What a call answers.
ghost use Rattle.std.specs.Prelude.{◌≡◌, ◌≤◌, length, IfOk, IsOkUnless, option_copied};
ghost use Rattle.rx_native.specs.Outcomes.{number_value, or_nil, truth_value};

use itoa::Buffer;
use rx_heap::HeapRefused;
use rx_tree::{OutOfMemory, Text, Value};
use std::alloc::{AllocError, Global};

/// The object `.nil`.
pub(crate) const NIL: u32 = 1;

/// The error of a string that would be too long, or of an object that would be too many.
pub(crate) const RESOURCES_EXHAUSTED: u8 = 5;

/// The error of an argument that has to be a class or an Array, and is none.
pub(crate) const INVALID_ARGUMENT: u8 = 88;

/// The error of any other wrong argument.
pub(crate) const INCORRECT_METHOD_CALL: u8 = 93;

/// What a method has begun, for its caller to go on with. The numbers are those of objects.
#[derive(Clone, Copy, Debug, PartialEq, Eq)]
pub enum Began {
    /// A new object, which INIT is to be sent to: with the arguments of NEW, but without any where the class Array's own NEW
    /// made it.
    New(u32),
    /// A Message that an activity is to send.
    Start(u32),
}

/// What a method gives to its sender.
#[derive(Drop)]
pub enum NativeAnswer {
    Value(Value),
    /// It gives no value.
    Nothing,
    Begin(Began),
}

/// Why a method gives no answer.
#[derive(Clone, Copy, Debug, PartialEq, Eq)]
pub enum NativeRefused {
    /// The error of this number is raised.
    Raised(u8),
    OutOfMemory,
}

impl From<u8> for NativeRefused {
    ghost use Rattle.std.specs.Prelude.{◌≡◌};
    ghost use Rattle.rx_native.specs.declared.answer.NativeRefused.TheVariants as refused;

    ghost from_gives = { λ number e. e ≡ refused.Raised number };

    fn from(number: u8) -> NativeRefused {
        NativeRefused::Raised(number)
    }
}

impl From<OutOfMemory> for NativeRefused {
    ghost use Rattle.std.specs.Prelude.{◌≡◌};
    ghost use Rattle.rx_native.specs.declared.answer.NativeRefused.TheVariants as refused;

    ghost from_gives = { λ _ e. e ≡ refused.OutOfMemory };

    fn from(_error: OutOfMemory) -> NativeRefused {
        NativeRefused::OutOfMemory
    }
}

impl From<AllocError> for NativeRefused {
    ghost use Rattle.std.specs.Prelude.{◌≡◌};
    ghost use Rattle.rx_native.specs.declared.answer.NativeRefused.TheVariants as refused;

    ghost from_gives = { λ _ e. e ≡ refused.OutOfMemory };

    fn from(_error: AllocError) -> NativeRefused {
        NativeRefused::OutOfMemory
    }
}

impl From<HeapRefused> for NativeRefused {
    ghost use Rattle.std.specs.Prelude.{◌≡◌};
    ghost use Rattle.rx_heap.specs.declared.heap.HeapRefused.{HeapRefused};
    ghost use Rattle.rx_heap.specs.declared.heap.HeapRefused.TheVariants as heap;
    ghost use Rattle.rx_native.specs.declared.answer.NativeRefused.{NativeRefused};
    ghost use Rattle.rx_native.specs.declared.answer.NativeRefused.TheVariants as refused;
    ghost use Rattle.rx_native.specs.Outcomes.{of_heap};

    ghost from_gives = { λ error e. e ≡ of_heap error };

    fn from(error: HeapRefused) -> NativeRefused {
        match error {
            HeapRefused::Full => NativeRefused::Raised(RESOURCES_EXHAUSTED),
            HeapRefused::OutOfMemory => NativeRefused::OutOfMemory,
        }
    }
}

/// A string as an answer.
pub(crate) fn text_answer(alloc: Global, bytes: &[u8]) -> Result<NativeAnswer, NativeRefused>
    requires { length bytes.now ≤ Text.LONGEST }
    ensures text { IfOk result (λ answer. answer ≡ NativeAnswer.Value (Value.Str bytes.now)) }
    ensures err { IsOkUnless result NativeRefused.OutOfMemory }
{
    Ok(NativeAnswer::Value(Value::Str(Text::from_slice(alloc, bytes)?)))
}

/// A number as an answer: its decimal digits.
pub(crate) fn number_answer(alloc: Global, number: u32) -> Result<NativeAnswer, NativeRefused>
    ensures number { IfOk result (λ answer. answer ≡ NativeAnswer.Value (number_value number)) }
    ensures err { IsOkUnless result NativeRefused.OutOfMemory }
{
    let mut buffer = Buffer::new();
    text_answer(alloc, buffer.format(number).as_bytes())
}

/// A logical value as an answer.
pub(crate) fn truth_answer(alloc: Global, holds: bool) -> Result<NativeAnswer, NativeRefused>
    ensures truth { IfOk result (λ answer. answer ≡ NativeAnswer.Value (truth_value holds)) }
    ensures err { IsOkUnless result NativeRefused.OutOfMemory }
{
    if holds {
        text_answer(alloc, b"1")
    } else {
        text_answer(alloc, b"0")
    }
}

/// An item that is lent as an answer: `.nil` where there is none.
pub(crate) fn item_answer(item: Option<&Value>) -> Result<NativeAnswer, NativeRefused>
    ensures item { IfOk result (λ answer. answer ≡ NativeAnswer.Value (or_nil (option_copied item.entry))) }
    ensures err { IsOkUnless result NativeRefused.OutOfMemory }
{
    match item {
        Some(value) => Ok(NativeAnswer::Value(value.share()?)),
        None => Ok(NativeAnswer::Value(Value::Ref(NIL))),
    }
}

/// An item that was taken away as an answer: `.nil` where there was none.
pub(crate) fn taken_answer(item: Option<Value>) -> NativeAnswer
    ensures { result ≡ NativeAnswer.Value (or_nil item) }
{
    match item {
        Some(value) => NativeAnswer::Value(value),
        None => NativeAnswer::Value(Value::Ref(NIL)),
    }
}
