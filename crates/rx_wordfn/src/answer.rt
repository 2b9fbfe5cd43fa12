// Texts as the values of functions.
ghost use Rattle.std.specs.Prelude.{◌≡◌, ◌++◌};
ghost use Rattle.rx_answers.specs.Answers.{within_limit, AnswersText};

use rx_answers::{Bytes, LONGEST, TOO_LONG};
use std::alloc::Global;

/// A text as the value of a function.
pub(crate) fn copied(alloc: Global, text: &[u8]) -> Bytes
    ensures answer { AnswersText result (within_limit text.now) }
{
    if text.len() > LONGEST {
        return Err(TOO_LONG);
    }
    Ok(Vec::from_slice(alloc, text)?)
}

/// Two texts, one behind the other, as the value of a function.
pub(crate) fn joined(alloc: Global, front: &[u8], back: &[u8]) -> Bytes
    ensures answer { AnswersText result (within_limit (front.now ++ back.now)) }
{
    if front.len() > LONGEST || back.len() > LONGEST - front.len() {
        return Err(TOO_LONG);
    }
    let mut bytes = Vec::from_slice(alloc, front)?;
    bytes.extend_from_slice(back)?;
    Ok(bytes)
}
