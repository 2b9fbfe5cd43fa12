// Texts as the values of calls.
ghost use Rattle.std.specs.Prelude.{◌≡◌, ℕ, ◌≤◌, decimal, length, List, Result};
ghost use Rattle.rx_answers.specs.Answers.{AnswersNumber, AnswersText, number_answer};
ghost use Rattle.rx_builtin.specs.Answers.{Answers, in_digits, limited};

use itoa::Buffer;
use rx_answers::{Bytes, LONGEST, Number, Refused, TOO_LONG};
use rx_tree::Text;
use std::alloc::Global;

/// A text with these bytes.
pub(crate) fn made(alloc: Global, bytes: &[u8]) -> Result<Text, Refused>
    requires { length bytes.now ≤ LONGEST }
    ensures { Answers result (Ok bytes.now) }
{
    match Text::from_slice(alloc, bytes) {
        Ok(text) => Ok(text),
        Err(_) => Err(Refused::OutOfMemory),
    }
}

/// A further owner of a text.
pub(crate) fn shared(text: &Text) -> Result<Text, Refused>
    ensures { Answers result (Ok text.now) }
{
    match text.share() {
        Ok(text) => Ok(text),
        Err(_) => Err(Refused::OutOfMemory),
    }
}

/// A number in decimal digits.
pub(crate) fn told(alloc: Global, number: u64) -> Result<Text, Refused>
    ensures { Answers result (Ok (decimal number)) }
{
    let mut buffer = Buffer::new();
    made(alloc, buffer.format(number).as_bytes())
}

/// What a function comes to that gives a number.
pub(crate) fn in_digits(alloc: Global, answer: Number) -> Result<Text, Refused>
    ensures { (value : Result ℕ ℕ) → answer ≡ number_answer value → Answers result (in_digits value) }
{
    match answer {
        Ok(number) => told(alloc, number),
        Err(refused) => Err(refused),
    }
}

/// What a function comes to that gives a text. One that is too long raises 5.
pub(crate) fn limited(alloc: Global, answer: Bytes) -> Result<Text, Refused>
    ensures { (value : Result (List ℕ) ℕ) → AnswersText answer value → Answers result (limited value) }
{
    match answer {
        Ok(bytes) if bytes.len() > LONGEST => Err(TOO_LONG),
        Ok(bytes) => made(alloc, bytes.as_slice()),
        Err(refused) => Err(refused),
    }
}

/// A number in decimal digits, beside functions that give texts.
pub(crate) fn digits(alloc: Global, number: u64) -> Bytes
    ensures { AnswersText result (Ok (decimal number)) }
{
    let mut buffer = Buffer::new();
    Ok(Vec::from_slice(alloc, buffer.format(number).as_bytes())?)
}

/// What a function comes to that gives a number, beside functions that give texts.
pub(crate) fn digits_of(alloc: Global, answer: Number) -> Bytes
    ensures exact { (value : Result ℕ ℕ) → answer ≡ number_answer value → AnswersText result (in_digits value) }
    ensures answers { (value : Result ℕ ℕ) → AnswersNumber answer value → AnswersText result (in_digits value) }
{
    match answer {
        Ok(number) => digits(alloc, number),
        Err(refused) => Err(refused),
    }
}
