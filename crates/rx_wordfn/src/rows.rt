// Where the words of a phrase stand in a row.
ghost use Rattle.std.specs.Prelude.{◌≡◌, ◌<◌, ◌==◌, IfOk, count_by, length};
ghost use Rattle.rx_answers.specs.Answers.{AnswersNumber};
ghost use Rattle.rx_wordfn.specs.Functions.{before_row, wordpos};
ghost use Rattle.rx_wordfn.specs.Words.{words};
ghost use Rattle.rx_wordfn.specs.Lines.{line};

use crate::cursor::{from_word, next_word};
use memchr::memmem;
use rx_answers::{Number, OUT_OF_RANGE};
use std::alloc::{AllocError, Global};

// The words of a text as a line that has one space in front of the first word and one behind each.
fn line_of(alloc: Global, text: &[u8]) -> Result<Vec<u8>, AllocError>
    ensures { IfOk result (λ bytes. bytes.items ≡ line (words text.now)) }
{
    let mut bytes = Vec::new(alloc);
    bytes.push(b' ')?;
    let mut rest = text;
    while let Some((word, behind)) = next_word(rest) {
        bytes.extend_from_slice(word)?;
        bytes.push(b' ')?;
        rest = behind;
    }
    Ok(bytes)
}

fn spaces(line: &[u8]) -> usize
    ensures { result ≡ count_by (λ byte. byte == 0x20) line.now }
{
    line.iter().filter(|byte| **byte == b' ').count()
}

// How many words of a text stand in front of the first place where the words of a phrase stand in a row. The phrase has
// some.
fn words_before(alloc: Global, phrase: &[u8], text: &[u8]) -> Result<Option<usize>, AllocError>
    requires { 0 < length (words phrase.now) }
    ensures { IfOk result (λ count. count ≡ before_row (words phrase.now) (words text.now)) }
{
    let row = line_of(alloc, phrase)?;
    let line = line_of(alloc, text)?;
    let Some(at) = memmem::find(&line, &row) else {
        return Ok(None);
    };
    Ok(Some(spaces(&line[..at])))
}

/// WORDPOS: the number of the first word of a text, from word `from` on, where the words of a phrase stand in a row; 0
/// where they don't, or where the phrase has no words. Blanks count alike, however many there are. Without `from` it is 1.
///
/// Phrase and text are written once as lines with one space between words, and the one line is sought in the other. So it
/// takes time and memory in proportion to both, however much of the phrase stands at many places of the text.
///
/// # Errors
///
/// 40 where `from` is 0.
pub fn wordpos(alloc: Global, phrase: &[u8], text: &[u8], from: Option<u64>) -> Number
    ensures answer { AnswersNumber result (wordpos phrase.now from text.now) }
{
    let from = from.unwrap_or(1);
    if from == 0 {
        return Err(OUT_OF_RANGE);
    }
    if next_word(phrase).is_none() {
        return Ok(0);
    }
    match words_before(alloc, phrase, from_word(text, from - 1))? {
        Some(count) => Ok(from + count as u64),
        None => Ok(0),
    }
}
