// The words of a text with a gap between them.
ghost use Rattle.std.specs.Prelude.{◌≡◌, ◌++◌, OnOk, nat_le, replicate};
ghost use Rattle.rx_answers.specs.Answers.{AnswersText};
ghost use Rattle.rx_wordfn.specs.Functions.{space};
ghost use Rattle.rx_wordfn.specs.Lines.{spaced_length};
ghost use Rattle.rx_wordfn.specs.Words.{words};

use crate::cursor::next_word;
use rx_answers::{Bytes, LONGEST, TOO_LONG};
use std::alloc::{AllocError, Global};

// Whether the words of a text with gaps of `gap` bytes between them are no longer than a string may be.
fn fits(text: &[u8], gap: u64) -> bool
    ensures { result ≡ nat_le (spaced_length gap (words text.now)) 16777216 }
{
    let Some((first, mut rest)) = next_word(text) else {
        return true;
    };
    let mut length = first.len() as u64;
    while let Some((word, behind)) = next_word(rest) {
        length = length.saturating_add(gap).saturating_add(word.len() as u64);
        rest = behind;
    }
    length <= LONGEST as u64
}

fn push_copies(bytes: &mut Vec<u8>, byte: u8, count: u64) -> Result<(), AllocError>
    ensures { OnOk result (bytes.new.items ≡ bytes.old.items ++ replicate count byte) }
{
    for _ in 0..count {
        bytes.push(byte)?;
    }
    Ok(())
}

/// SPACE: the words of a text with `n` bytes `pad` between each two, 1 where no count is given. No blank stands in front
/// of the first word or behind the last.
///
/// # Errors
///
/// 5 where the result would be longer than a string may be.
pub fn space(alloc: Global, text: &[u8], n: Option<u64>, pad: u8) -> Bytes
    ensures answer { AnswersText result (space n pad text.now) }
{
    let gap = n.unwrap_or(1);
    if !fits(text, gap) {
        return Err(TOO_LONG);
    }
    let Some((first, mut rest)) = next_word(text) else {
        return Ok(Vec::new(alloc));
    };
    let mut bytes = Vec::from_slice(alloc, first)?;
    while let Some((word, behind)) = next_word(rest) {
        push_copies(&mut bytes, pad, gap)?;
        bytes.extend_from_slice(word)?;
        rest = behind;
    }
    Ok(bytes)
}
