// The methods of String: built-in functions with the receiver among their arguments.
ghost use Rattle.std.specs.Prelude.{◌≡◌, ◌≤◌, ◌∷◌, ℕ, List, Result, Ok, Err, Some, IfOk, OnOk};
ghost use Rattle.rx_builtin.specs.Answers as function;
ghost use Rattle.rx_native.specs.Answers.{Answers};
ghost use Rattle.rx_native.specs.Outcomes.{gives, on};
ghost use Rattle.rx_native.specs.StringMethods as spec;
ghost use Rattle.rx_tree.specs.Object.{Object};

use crate::answer::{INCORRECT_METHOD_CALL, NativeAnswer, NativeRefused};
use rx_answers::INCORRECT_CALL;
use rx_builtin::{Facts, Refused, call};
use rx_tree::{OutOfMemory, Shared, Text, Value};
use sqlite_items::Items;
use std::alloc::Global;

/// Where the receiver stands among the arguments of a function.
#[derive(Clone, Copy)]
pub enum Receiver {
    First,
    Second,
}

/// A function on the places and bytes of a text.
#[derive(Clone, Copy)]
pub enum OfText {
    Length,
    Substr,
    Left,
    Right,
    Center,
    Strip,
    Reverse,
    Copies,
    Delstr,
    Translate,
    Verify,
    Compare,
    Abbrev,
    Upper,
    Lower,
    Pos,
    Lastpos,
    Countstr,
    Insert,
    Overlay,
    Changestr,
}

/// A function on the words of a text.
#[derive(Clone, Copy)]
pub enum OfWords {
    Word,
    Words,
    Wordindex,
    Wordlength,
    Subword,
    Delword,
    Space,
    Wordpos,
}

/// A function on what a text says: as a number, as digits, or as data of a kind.
#[derive(Clone, Copy)]
pub enum OfValue {
    D2x,
    X2d,
    C2x,
    X2c,
    B2x,
    X2b,
    C2d,
    D2c,
    Abs,
    Sign,
    Datatype,
}

/// A method of String.
#[derive(Clone, Copy)]
pub enum OfString {
    Text(OfText),
    Words(OfWords),
    Value(OfValue),
}

fn text_name(method: OfText) -> &'static [u8]
    ensures { result.now ≡ (spec.text_function method).name }
{
    match method {
        OfText::Length => b"LENGTH",
        OfText::Substr => b"SUBSTR",
        OfText::Left => b"LEFT",
        OfText::Right => b"RIGHT",
        OfText::Center => b"CENTER",
        OfText::Strip => b"STRIP",
        OfText::Reverse => b"REVERSE",
        OfText::Copies => b"COPIES",
        OfText::Delstr => b"DELSTR",
        OfText::Translate => b"TRANSLATE",
        OfText::Verify => b"VERIFY",
        OfText::Compare => b"COMPARE",
        OfText::Abbrev => b"ABBREV",
        OfText::Upper => b"UPPER",
        OfText::Lower => b"LOWER",
        OfText::Pos => b"POS",
        OfText::Lastpos => b"LASTPOS",
        OfText::Countstr => b"COUNTSTR",
        OfText::Insert => b"INSERT",
        OfText::Overlay => b"OVERLAY",
        OfText::Changestr => b"CHANGESTR",
    }
}

fn words_name(method: OfWords) -> &'static [u8]
    ensures { result.now ≡ (spec.words_function method).name }
{
    match method {
        OfWords::Word => b"WORD",
        OfWords::Words => b"WORDS",
        OfWords::Wordindex => b"WORDINDEX",
        OfWords::Wordlength => b"WORDLENGTH",
        OfWords::Subword => b"SUBWORD",
        OfWords::Delword => b"DELWORD",
        OfWords::Space => b"SPACE",
        OfWords::Wordpos => b"WORDPOS",
    }
}

fn value_name(method: OfValue) -> &'static [u8]
    ensures { result.now ≡ (spec.value_function method).name }
{
    match method {
        OfValue::D2x => b"D2X",
        OfValue::X2d => b"X2D",
        OfValue::C2x => b"C2X",
        OfValue::X2c => b"X2C",
        OfValue::B2x => b"B2X",
        OfValue::X2b => b"X2B",
        OfValue::C2d => b"C2D",
        OfValue::D2c => b"D2C",
        OfValue::Abs => b"ABS",
        OfValue::Sign => b"SIGN",
        OfValue::Datatype => b"DATATYPE",
    }
}

// The name of the function that a method is.
fn function_name(method: OfString) -> &'static [u8]
    ensures name { result.now ≡ (spec.function_of method).name }
{
    match method {
        OfString::Text(method) => text_name(method),
        OfString::Words(method) => words_name(method),
        OfString::Value(method) => value_name(method),
    }
}

// Where the receiver stands among the arguments of that function.
fn receiver_of(method: OfString) -> Receiver
    ensures { result ≡ (spec.function_of method).receiver }
{
    match method {
        OfString::Text(
            OfText::Pos
            | OfText::Lastpos
            | OfText::Countstr
            | OfText::Insert
            | OfText::Overlay
            | OfText::Changestr,
        )
        | OfString::Words(OfWords::Wordpos) => Receiver::Second,
        _ => Receiver::First,
    }
}

// The text of a value; an object is a wrong argument.
fn value_text(value: &Value) -> Result<Text, NativeRefused>
    ensures text { IfOk result (λ text. spec.value_text value.now ≡ Ok text) }
    ensures raised { (number : ℕ) → result ≡ Err (NativeRefused.Raised number)
        → spec.value_text value.now ≡ Err number }
{
    match value {
        Value::Str(text) => Ok(text.share()?),
        Value::Ref(_) => Err(NativeRefused::Raised(INCORRECT_METHOD_CALL)),
    }
}

// The text of an argument, if it is given.
fn argument_text(argument: &Option<Value>) -> Result<Option<Text>, NativeRefused>
    ensures text { IfOk result (λ text. spec.argument_text argument.now ≡ Ok text) }
    ensures raised { (number : ℕ) → result ≡ Err (NativeRefused.Raised number)
        → spec.argument_text argument.now ≡ Err number }
{
    match argument {
        None => Ok(None),
        Some(value) => match value_text(value) {
            Ok(text) => Ok(Some(text)),
            Err(refused) => Err(refused),
        },
    }
}

// Puts the texts of some arguments behind others.
fn push_texts(texts: &mut Items<Option<Text>>, args: &[Option<Value>]) -> Result<(), NativeRefused>
    ensures texts { OnOk result (spec.texts_behind texts.old args.now ≡ Ok texts.new) }
    ensures raised { (number : ℕ) → result ≡ Err (NativeRefused.Raised number)
        → spec.texts_behind texts.old args.now ≡ Err number }
{
    for argument in args {
        let text = argument_text(argument)?;
        texts.push(text)?;
    }
    Ok(())
}

// The texts of a receiver, and of the arguments behind it.
fn texts_in_front(
    alloc: Global,
    target: &Value,
    args: &[Option<Value>],
) -> Result<Items<Option<Text>>, NativeRefused>
    ensures texts { IfOk result (λ texts.
        spec.texts_of (spec.with_receiver Receiver.First target.now args.now) ≡ Ok texts) }
    ensures raised { (number : ℕ) → result ≡ Err (NativeRefused.Raised number)
        → spec.texts_of (spec.with_receiver Receiver.First target.now args.now) ≡ Err number }
{
    let mut texts = Items::new(alloc);
    texts.push(Some(value_text(target)?))?;
    push_texts(&mut texts, args)?;
    Ok(texts)
}

// The texts of an argument, of the receiver, and of the arguments behind it.
fn texts_around(
    alloc: Global,
    target: &Value,
    argument: &Option<Value>,
    rest: &[Option<Value>],
) -> Result<Items<Option<Text>>, NativeRefused>
    ensures texts { IfOk result (λ texts.
        spec.texts_of (argument.now ∷ Some target.now ∷ rest.now) ≡ Ok texts) }
    ensures raised { (number : ℕ) → result ≡ Err (NativeRefused.Raised number)
        → spec.texts_of (argument.now ∷ Some target.now ∷ rest.now) ≡ Err number }
{
    let mut texts = Items::new(alloc);
    texts.push(argument_text(argument)?)?;
    texts.push(Some(value_text(target)?))?;
    push_texts(&mut texts, rest)?;
    Ok(texts)
}

// The texts of the arguments of a function, with the receiver among them.
fn texts_of(
    alloc: Global,
    receiver: Receiver,
    target: &Value,
    args: &[Option<Value>],
) -> Result<Items<Option<Text>>, NativeRefused>
    ensures texts { IfOk result (λ texts.
        spec.texts_of (spec.with_receiver receiver target.now args.now) ≡ Ok texts) }
    ensures raised { (number : ℕ) → result ≡ Err (NativeRefused.Raised number)
        → spec.texts_of (spec.with_receiver receiver target.now args.now) ≡ Err number }
{
    match (receiver, args) {
        (Receiver::First, _) => texts_in_front(alloc, target, args),
        (Receiver::Second, [argument, rest @ ..]) => texts_around(alloc, target, argument, rest),
        (Receiver::Second, []) => texts_around(alloc, target, &None, &[]),
    }
}

// What a function reads besides its arguments: for these it is DIGITS.
fn facts_of(alloc: Global, digits: u8) -> Result<Facts, OutOfMemory>
    ensures { IfOk result (λ facts. facts.digits ≡ digits) }
{
    Ok(Facts {
        digits,
        arguments: Shared::new(alloc, Items::new(alloc))?,
        queued: 0,
        condition: None,
        lines: Shared::new(alloc, Items::new(alloc))?,
    })
}

// The answer of a function, as a method's.
fn of_method(value: Result<Text, Refused>) -> Result<NativeAnswer, NativeRefused>
    ensures answer { (comes_to : Result (List ℕ) ℕ) (objects : List Object) → function.Answers value comes_to
        → Answers result objects objects (on (spec.of_method comes_to) (λ text. gives objects (Value.Str text))) }
{
    match value {
        Ok(text) => Ok(NativeAnswer::Value(Value::Str(text))),
        Err(Refused::Raised(INCORRECT_CALL)) => {
            Err(NativeRefused::Raised(INCORRECT_METHOD_CALL))
        }
        Err(Refused::Raised(number)) => Err(NativeRefused::Raised(number)),
        Err(Refused::OutOfMemory) => Err(NativeRefused::OutOfMemory),
    }
}

/// What a method comes to.
pub(crate) fn string_answer(
    alloc: Global,
    method: OfString,
    target: &Value,
    args: &[Option<Value>],
    digits: u8,
) -> Result<NativeAnswer, NativeRefused>
    requires at_least_1 { 1 ≤ digits }
    requires at_most_18 { digits ≤ 18 }
    ensures { (facts : Facts) (objects : List Object) → facts.digits ≡ digits
        → Answers result objects objects (spec.string_answer method facts objects target.now args.now) }
{
    let texts = texts_of(alloc, receiver_of(method), target, args)?;
    let facts = facts_of(alloc, digits)?;
    of_method(call(alloc, function_name(method), texts.as_slice(), &facts))
}
