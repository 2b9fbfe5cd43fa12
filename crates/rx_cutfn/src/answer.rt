// What the calls answer with.
ghost use Rattle.std.specs.Prelude.{◌≡◌, ℕ, ◌-◌, ◌<◌, ◌≤◌, [], IfOk, OnOk};
ghost use Rattle.rx_answers.specs.Answers.{AnswersText, at_place, number_answer, within_limit};

use rx_answers::{Bytes, LONGEST, Number, OUT_OF_RANGE, RESOURCES_EXHAUSTED, Refused, TOO_LONG};
use std::alloc::Global;

/// An empty text with room for so many bytes, which are at most `LONGEST`; else 5 is raised.
pub(crate) fn room(alloc: Global, length: u64) -> Bytes
    ensures empty { IfOk result (λ bytes. bytes.items ≡ []) }
    ensures fits { OnOk result (length ≤ LONGEST) }
    ensures too_long { (number : ℕ) → result ≡ Err (Refused.Raised number)
        → (number ≡ RESOURCES_EXHAUSTED) × (LONGEST < length) }
{
    if length > LONGEST as u64 {
        return Err(TOO_LONG);
    }
    Ok(Vec::with_capacity(alloc, length as usize)?)
}

/// A copy of some bytes, which are at most `LONGEST`; else 5 is raised.
pub(crate) fn copy(alloc: Global, bytes: &[u8]) -> Bytes
    ensures answer { AnswersText result (within_limit bytes.now) }
{
    let mut copy = room(alloc, bytes.len() as u64)?;
    copy.extend_from_slice(bytes)?;
    Ok(copy)
}

/// How many bytes stand before a place. Place 0 raises 40.
pub(crate) fn before(place: u64) -> Number
    ensures answer { result ≡ number_answer (at_place place (Ok (place - 1))) }
{
    place.checked_sub(1).ok_or(OUT_OF_RANGE)
}
