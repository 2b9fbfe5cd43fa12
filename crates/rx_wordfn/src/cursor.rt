// Going over the words of a text.
ghost use Rattle.std.specs.Prelude.{◌≡◌, ◌+◌, ◌<◌, ◌≤◌, [], ◌∷◌, drop, length, position, IfNone, IfSome};
ghost use Rattle.std.specs.List.{before_first};
ghost use Rattle.rx_text.specs.Blanks.{is_blank, without_blanks_in_front};
ghost use Rattle.rx_wordfn.specs.Words.{from_blank, from_word, words};

use rx_text::{is_blank, strip_front};

// How many bytes stand in front of the first blank; none where there is no blank.
fn first_blank(text: &[u8]) -> Option<usize>
    ensures { result ≡ position is_blank text.now }
{
    text.iter().position(|byte| is_blank(*byte))
}

// The bytes in front of the first blank, and the text from there on.
fn split_word(text: &[u8]) -> (&[u8], &[u8])
    ensures word { result.0.now ≡ before_first is_blank text.now }
    ensures behind { result.1.now ≡ from_blank text.now }
    ensures lengths { length result.0.now + length result.1.now ≡ length text.now }
{
    text.split_at(first_blank(text).unwrap_or(text.len()))
}

/// The first word of a text, and the text behind it; none where only blanks are left.
pub(crate) fn next_word(text: &[u8]) -> Option<(&[u8], &[u8])>
    ensures none { IfNone result (words text.now ≡ []) }
    ensures blank { IfNone result (without_blanks_in_front text.now ≡ []) }
    ensures word { IfSome result (λ cut. words text.now ≡ cut.0.now ∷ words cut.1.now) }
    ensures behind { IfSome result (λ cut. cut.1.now ≡ from_blank (without_blanks_in_front text.now)) }
    ensures some { IfSome result (λ cut. 0 < length cut.0.now) }
    ensures lengths { IfSome result (λ cut. length cut.0.now + length cut.1.now ≤ length text.now) }
{
    let text = strip_front(text);
    if text.is_empty() {
        return None;
    }
    Some(split_word(text))
}

/// The text from the start of the word on that has `count` words in front of it; empty where there is none.
pub(crate) fn from_word(text: &[u8], count: u64) -> &[u8]
    ensures rest { result.now ≡ from_word count text.now }
    ensures words { words result.now ≡ drop count (words text.now) }
    ensures no_longer { length result.now ≤ length text.now }
{
    let mut rest = text;
    for _ in 0..count {
        let Some((_, behind)) = next_word(rest) else {
            break;
        };
        rest = behind;
    }
    strip_front(rest)
}
