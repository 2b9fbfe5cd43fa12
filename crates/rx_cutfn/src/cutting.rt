// The functions that give a part of a text, padded where it is too short.
ghost use Rattle.std.specs.Prelude.{◌≡◌, ◌≤◌, ◌++◌, length, take, drop, slice_index_or, OnOk};
ghost use Rattle.rx_answers.specs.Answers.{AnswersText};
ghost use Rattle.rx_cutfn.specs.Cutting.{center, delstr, fitted, left, right, substr};

use crate::answer::{before, copy, room};
use rx_answers::{Bytes, LONGEST};
use std::alloc::{AllocError, Global};

/// LENGTH: the number of bytes.
pub fn length(text: &[u8]) -> u64
    ensures length { result ≡ length text.now }
{
    text.len() as u64
}

/// The first bytes of a text, so many or all.
pub(crate) fn front(text: &[u8], count: u64) -> &[u8]
    ensures front { result.now ≡ take count text.now }
{
    &text[..text.len().min(count as usize)]
}

/// The bytes of a text behind the first so many.
pub(crate) fn rest(text: &[u8], count: u64) -> &[u8]
    ensures rest { result.now ≡ drop count text.now }
{
    &text[text.len().min(count as usize)..]
}

/// The byte behind the first so many, or the pad.
pub(crate) fn byte_behind(text: &[u8], passed: usize, pad: u8) -> u8
    ensures { result ≡ slice_index_or text.now passed pad }
{
    text.get(passed).copied().unwrap_or(pad)
}

/// Appends a text made `width` bytes long: the first bytes of it, with pads behind it.
pub(crate) fn push_fitted(
    bytes: &mut Vec<u8>,
    text: &[u8],
    width: u64,
    pad: u8,
) -> Result<(), AllocError>
    requires { width ≤ LONGEST }
    ensures { OnOk result (bytes.new.items ≡ bytes.old.items ++ fitted width pad text.now) }
{
    let kept = front(text, width);
    bytes.extend_from_slice(kept)?;
    let missing = width as usize - kept.len();
    bytes.resize(bytes.len() + missing, pad)
}

/// LEFT: the first `length` bytes, with pads behind them where there are fewer.
///
/// # Errors
///
/// 5 where `length` is more than 16,777,216.
#[tactic(auto, unfolding(crate::specs::Cutting::left))]
pub fn left(alloc: Global, text: &[u8], length: u64, pad: u8) -> Bytes
    ensures answer { AnswersText result (left text.now length pad) }
{
    let mut bytes = room(alloc, length)?;
    push_fitted(&mut bytes, text, length, pad)?;
    Ok(bytes)
}

/// RIGHT: the last `length` bytes, with pads in front of them where there are fewer.
///
/// # Errors
///
/// 5 where `length` is more than 16,777,216.
#[tactic(auto, unfolding(crate::specs::Cutting::right))]
pub fn right(alloc: Global, text: &[u8], length: u64, pad: u8) -> Bytes
    ensures answer { AnswersText result (right text.now length pad) }
{
    let mut bytes = room(alloc, length)?;
    let width = length as usize;
    bytes.resize(width.saturating_sub(text.len()), pad)?;
    bytes.extend_from_slice(&text[text.len().saturating_sub(width)..])?;
    Ok(bytes)
}

/// CENTER: the text made `length` bytes long on both sides. Where the numbers of bytes that are added or cut on the two
/// sides differ, the right side has one more.
///
/// # Errors
///
/// 5 where `length` is more than 16,777,216.
#[tactic(auto, unfolding(crate::specs::Cutting::center))]
pub fn center(alloc: Global, text: &[u8], length: u64, pad: u8) -> Bytes
    ensures answer { AnswersText result (center text.now length pad) }
{
    let mut bytes = room(alloc, length)?;
    let text_length = text.len() as u64;
    let missing = length.saturating_sub(text_length) / 2;
    let excess = text_length.saturating_sub(length) / 2;
    bytes.resize(missing as usize, pad)?;
    push_fitted(&mut bytes, rest(text, excess), length - missing, pad)?;
    Ok(bytes)
}

/// SUBSTR: `length` bytes from a place on, with pads behind them where there are fewer; without `length` all that stand
/// there.
///
/// # Errors
///
/// 40 where `from` is 0, else 5 where the value has more than 16,777,216 bytes.
#[tactic(auto, unfolding(crate::specs::Cutting::left, crate::specs::Cutting::substr))]
pub fn substr(alloc: Global, text: &[u8], from: u64, length: Option<u64>, pad: u8) -> Bytes
    ensures answer { AnswersText result (substr text.now from length pad) }
{
    let part = rest(text, before(from)?);
    match length {
        Some(length) => left(alloc, part, length, pad),
        None => copy(alloc, part),
    }
}

/// DELSTR: the text without `length` bytes from a place on; without `length` without all that stand there.
///
/// # Errors
///
/// 40 where `from` is 0, else 5 where the value has more than 16,777,216 bytes.
#[tactic(auto, unfolding(crate::specs::Cutting::delstr))]
pub fn delstr(alloc: Global, text: &[u8], from: u64, length: Option<u64>) -> Bytes
    ensures answer { AnswersText result (delstr text.now from length) }
{
    let kept = before(from)?;
    let first = front(text, kept);
    let second = match length {
        Some(length) => rest(rest(text, kept), length),
        None => &[],
    };
    let mut bytes = room(alloc, first.len() as u64 + second.len() as u64)?;
    bytes.extend_from_slice(first)?;
    bytes.extend_from_slice(second)?;
    Ok(bytes)
}
