// The functions that put texts together, and REVERSE.
ghost use Rattle.std.specs.Prelude.{◌≡◌, ◌≤◌, length};
ghost use Rattle.rx_answers.specs.Answers.{AnswersText};
ghost use Rattle.rx_cutfn.specs.Cutting.{copies, insert, overlay, turned};

use crate::answer::{before, copy, room};
use crate::cutting::{push_fitted, rest};
use rx_answers::Bytes;
use std::alloc::Global;

/// INSERT: `new`, made `length` bytes long, behind the first `at` bytes of the text, which is padded up to there. `at` is 0
/// and `length` that of `new`, where they aren't given.
///
/// # Errors
///
/// 5 where the value has more than 16,777,216 bytes.
#[tactic(auto, unfolding(crate::specs::Cutting::insert))]
pub fn insert(
    alloc: Global,
    new: &[u8],
    text: &[u8],
    at: Option<u64>,
    length: Option<u64>,
    pad: u8,
) -> Bytes
    ensures answer { AnswersText result (insert new.now text.now at length pad) }
{
    let front = at.unwrap_or(0);
    let width = length.unwrap_or(new.len() as u64);
    let total = front.max(text.len() as u64).saturating_add(width);
    let mut bytes = room(alloc, total)?;
    push_fitted(&mut bytes, text, front, pad)?;
    push_fitted(&mut bytes, new, width, pad)?;
    bytes.extend_from_slice(rest(text, front))?;
    Ok(bytes)
}

/// OVERLAY: `new`, made `length` bytes long, over the text from place `at` on, before which the text is padded. `at` is 1
/// and `length` that of `new`, where they aren't given.
///
/// # Errors
///
/// 40 where `at` is 0, else 5 where the value has more than 16,777,216 bytes.
#[tactic(auto, unfolding(crate::specs::Cutting::overlay))]
pub fn overlay(
    alloc: Global,
    new: &[u8],
    text: &[u8],
    at: Option<u64>,
    length: Option<u64>,
    pad: u8,
) -> Bytes
    ensures answer { AnswersText result (overlay new.now text.now at length pad) }
{
    let front = before(at.unwrap_or(1))?;
    let width = length.unwrap_or(new.len() as u64);
    let end = front.saturating_add(width);
    let mut bytes = room(alloc, end.max(text.len() as u64))?;
    push_fitted(&mut bytes, text, front, pad)?;
    push_fitted(&mut bytes, new, width, pad)?;
    bytes.extend_from_slice(rest(text, end))?;
    Ok(bytes)
}

/// COPIES: the text `n` times in a row.
///
/// # Errors
///
/// 5 where the value has more than 16,777,216 bytes.
#[tactic(auto, unfolding(crate::specs::Cutting::copies))]
pub fn copies(alloc: Global, text: &[u8], n: u64) -> Bytes
    ensures answer { AnswersText result (copies text.now n) }
{
    let mut bytes = room(alloc, n.saturating_mul(text.len() as u64))?;
    if text.is_empty() {
        return Ok(bytes);
    }
    for _ in 0..n {
        bytes.extend_from_slice(text)?;
    }
    Ok(bytes)
}

/// REVERSE: the bytes from the last to the first.
///
/// # Errors
///
/// 5 where the text has more than 16,777,216 bytes.
#[tactic(auto, unfolding(crate::specs::Cutting::turned))]
pub fn reverse(alloc: Global, text: &[u8]) -> Bytes
    ensures answer { AnswersText result (turned text.now) }
{
    let mut bytes = copy(alloc, text)?;
    bytes.reverse();
    Ok(bytes)
}
