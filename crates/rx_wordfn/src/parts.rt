// The functions that count words, and those that find words by their numbers.
ghost use Rattle.std.specs.Prelude.{◌≡◌, ◌<◌, ◌≤◌, [], slice_index_or, IfOk};
ghost use Rattle.std.specs.Prelude.{length as length_of};
ghost use Rattle.rx_answers.specs.Answers.{number_answer, AnswersText};
ghost use Rattle.rx_wordfn.specs.Functions.{behind_words, delword, subword, word, wordindex, wordlength, WordsFrom};
ghost use Rattle.rx_wordfn.specs.Words.{words};

use crate::answer::{copied, joined};
use crate::cursor::{from_word, next_word};
use rx_answers::{Bytes, Number, OUT_OF_RANGE};
use rx_text::strip;
use std::alloc::Global;

/// WORDS: how many words a text has.
pub fn words(text: &[u8]) -> u64
    ensures answer { result ≡ length_of (words text.now) }
{
    let mut count = 0;
    let mut rest = text;
    while let Some((_, behind)) = next_word(rest) {
        count += 1;
        rest = behind;
    }
    count
}

// The word that has `count` words in front of it, empty where there is none.
fn word_at(text: &[u8], count: u64) -> &[u8]
    ensures { result.now ≡ slice_index_or (words text.now) count [] }
{
    match next_word(from_word(text, count)) {
        Some((word, _)) => word,
        None => &[],
    }
}

/// WORD: word `n` of a text, empty where there is none.
///
/// # Errors
///
/// 40 where `n` is 0, else 5 where the word is longer than a string may be.
pub fn word(alloc: Global, text: &[u8], n: u64) -> Bytes
    ensures answer { AnswersText result (word n text.now) }
{
    if n == 0 {
        return Err(OUT_OF_RANGE);
    }
    copied(alloc, word_at(text, n - 1))
}

/// WORDINDEX: the place of the first byte of word `n` of a text, 0 where there is no such word. From there on stand the
/// text's words from number `n` on.
///
/// # Errors
///
/// 40 where `n` is 0.
pub fn wordindex(text: &[u8], n: u64) -> Number
    ensures answer { result ≡ number_answer (wordindex n text.now) }
    ensures there { IfOk result (λ place. 0 < place → WordsFrom n text.now place) }
{
    if n == 0 {
        return Err(OUT_OF_RANGE);
    }
    let part = from_word(text, n - 1);
    if part.is_empty() {
        return Ok(0);
    }
    Ok((text.len() - part.len()) as u64 + 1)
}

/// WORDLENGTH: the length of word `n` of a text, 0 where there is no such word.
///
/// # Errors
///
/// 40 where `n` is 0.
pub fn wordlength(text: &[u8], n: u64) -> Number
    ensures answer { result ≡ number_answer (wordlength n text.now) }
{
    if n == 0 {
        return Err(OUT_OF_RANGE);
    }
    Ok(word_at(text, n - 1).len() as u64)
}

// What stands behind the first words of a text, from the next one on; nothing where no count is given.
fn behind_words(text: &[u8], count: Option<u64>) -> &[u8]
    ensures rest { result.now ≡ behind_words count text.now }
    ensures no_longer { length_of result.now ≤ length_of text.now }
{
    match count {
        Some(count) => from_word(text, count),
        None => &[],
    }
}

/// SUBWORD: the part of a text that begins with word `n` and has `length` words, or all where no length is given. Blanks
/// between its words stay as they stand.
///
/// # Errors
///
/// 40 where `n` is 0, else 5 where the part is longer than a string may be.
pub fn subword(alloc: Global, text: &[u8], n: u64, length: Option<u64>) -> Bytes
    ensures answer { AnswersText result (subword n length text.now) }
{
    if n == 0 {
        return Err(OUT_OF_RANGE);
    }
    let part = from_word(text, n - 1);
    let behind = behind_words(part, length);
    copied(alloc, strip(&part[..part.len() - behind.len()]))
}

/// DELWORD: a text without `length` of its words from word `n` on, or without all of them where no length is given, and
/// without the blanks behind each of these.
///
/// # Errors
///
/// 40 where `n` is 0, else 5 where the rest is longer than a string may be.
pub fn delword(alloc: Global, text: &[u8], n: u64, length: Option<u64>) -> Bytes
    ensures answer { AnswersText result (delword n length text.now) }
{
    if n == 0 {
        return Err(OUT_OF_RANGE);
    }
    let part = from_word(text, n - 1);
    let behind = behind_words(part, length);
    joined(alloc, &text[..text.len() - part.len()], behind)
}
