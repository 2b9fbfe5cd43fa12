// The functions on all places of a needle, from the left without overlap.
ghost use Rattle.std.specs.Prelude.{◌≡◌, ◌≤◌, ◌*◌, ◌+◌, ◌<◌, ◌++◌, OnOk, length};
ghost use Rattle.rx_answers.specs.Answers.{AnswersText};
ghost use Rattle.rx_cutfn.specs.Replacing.{changestr, countstr, joined, pieces};

use crate::answer::{copy, room};
use memchr::memmem::Finder;
use rx_answers::Bytes;
use std::alloc::{AllocError, Global};

/// COUNTSTR: how many places the needle has in the text, from the left without overlap; 0 for an empty needle.
///
/// The time is in proportion to the lengths of needle and text: each search takes time in proportion to the needle and to
/// the bytes that it passes, and the next one begins behind the needle's place.
#[tactic(auto, unfolding(crate::specs::Replacing::countstr))]
pub fn countstr(needle: &[u8], text: &[u8]) -> u64
    ensures count { result ≡ countstr needle.now text.now }
{
    if needle.is_empty() {
        return 0;
    }
    let finder = Finder::new(needle);
    let mut count = 0;
    let mut rest = text;
    while let Some(at) = finder.find(rest) {
        count += 1;
        rest = rest.split_at(at + needle.len()).1;
    }
    count
}

// Appends the text with another text in place of each place of the needle.
fn push_changed(
    bytes: &mut Vec<u8>,
    needle: &[u8],
    text: &[u8],
    new: &[u8],
) -> Result<(), AllocError>
    requires { 0 < length needle.now }
    ensures { OnOk result
        (bytes.new.items ≡ bytes.old.items ++ joined new.now (pieces needle.now text.now)) }
{
    let finder = Finder::new(needle);
    let mut rest = text;
    while let Some(at) = finder.find(rest) {
        let (piece, found) = rest.split_at(at);
        bytes.extend_from_slice(piece)?;
        bytes.extend_from_slice(new)?;
        rest = found.split_at(needle.len()).1;
    }
    bytes.extend_from_slice(rest)
}

/// CHANGESTR: the text with `new` in place of each place of the needle, from the left without overlap. An empty needle
/// changes nothing.
///
/// The time is in proportion to the lengths of needle, text and value.
///
/// # Errors
///
/// 5 where the value has more than 16,777,216 bytes.
#[tactic(auto, unfolding(crate::specs::Replacing::changestr))]
pub fn changestr(alloc: Global, needle: &[u8], text: &[u8], new: &[u8]) -> Bytes
    ensures answer { AnswersText result (changestr needle.now text.now new.now) }
{
    if needle.is_empty() {
        return copy(alloc, text);
    }
    let count = countstr(needle, text);
    let kept = text.len() as u64 - count * needle.len() as u64;
    let total = count.saturating_mul(new.len() as u64).saturating_add(kept);
    let mut bytes = room(alloc, total)?;
    push_changed(&mut bytes, needle, text, new)?;
    Ok(bytes)
}
