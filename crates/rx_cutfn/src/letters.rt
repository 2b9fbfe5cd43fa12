// The functions that give a text with other bytes.
ghost use Rattle.std.specs.Prelude.{◌≡◌, ℕ, ◌<◌, slice_index, map, option_copied};
ghost use Rattle.rx_answers.specs.Answers.{AnswersText, within_limit};
ghost use Rattle.rx_cutfn.specs.Letters.{all_bytes, lower, translate, upper, IsTable};

use crate::answer::copy;
use crate::cutting::byte_behind;
use rx_answers::Bytes;
use std::alloc::Global;

/// UPPER: the text with its ASCII letters in upper case.
///
/// # Errors
///
/// 5 where the text has more than 16,777,216 bytes.
#[tactic(auto, unfolding(crate::specs::Letters::upper))]
pub fn upper(alloc: Global, text: &[u8]) -> Bytes
    ensures answer { AnswersText result (upper text.now) }
{
    let mut bytes = copy(alloc, text)?;
    bytes.make_ascii_uppercase();
    Ok(bytes)
}

/// LOWER: the text with its ASCII letters in lower case.
///
/// # Errors
///
/// 5 where the text has more than 16,777,216 bytes.
#[tactic(auto, unfolding(crate::specs::Letters::lower))]
pub fn lower(alloc: Global, text: &[u8]) -> Bytes
    ensures answer { AnswersText result (lower text.now) }
{
    let mut bytes = copy(alloc, text)?;
    bytes.make_ascii_lowercase();
    Ok(bytes)
}

// All bytes in order.
fn all_bytes() -> [u8; 256]
    ensures { result ≡ all_bytes }
{
    let mut bytes = [0; 256];
    for byte in 0..256 {
        bytes[byte] = byte as u8;
    }
    bytes
}

// What each byte becomes: one that is in the input table the byte of the output table at its first place there, or the pad.
fn table(output: &[u8], input: &[u8], pad: u8) -> [u8; 256]
    ensures { IsTable result output.now input.now pad }
{
    let mut table = all_bytes();
    for place in (0..input.len()).rev() {
        table[input[place] as usize] = byte_behind(output, place, pad);
    }
    table
}

// The text with the entry of a table in place of each byte.
fn replaced(alloc: Global, text: &[u8], table: &[u8; 256]) -> Bytes
    ensures { AnswersText result (within_limit (map (λ byte. slice_index table.now byte) text.now)) }
{
    let mut bytes = copy(alloc, text)?;
    for byte in bytes.iter_mut() {
        *byte = table[*byte as usize];
    }
    Ok(bytes)
}

/// TRANSLATE: each byte of the text that is in the table `from` becomes the byte of the table `to` at its first place there,
/// or the pad where `to` has none. `to` is empty, `from` all bytes in order and the pad a blank, where they aren't given;
/// where none of the three is, the text comes in upper case.
///
/// # Errors
///
/// 5 where the text has more than 16,777,216 bytes.
#[tactic(auto, unfolding(crate::specs::Letters::translate))]
pub fn translate(
    alloc: Global,
    text: &[u8],
    to: Option<&[u8]>,
    from: Option<&[u8]>,
    pad: Option<u8>,
) -> Bytes
    ensures answer { AnswersText result
        (translate text.now (option_copied to.entry) (option_copied from.entry) pad) }
{
    if to.is_none() && from.is_none() && pad.is_none() {
        return upper(alloc, text);
    }
    let all = all_bytes();
    let table = table(to.unwrap_or(&[]), from.unwrap_or(&all), pad.unwrap_or(b' '));
    replaced(alloc, text, &table)
}
