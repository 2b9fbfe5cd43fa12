// The blanks of the language, and a text without those around it.
ghost use Rattle.std.specs.Prelude.{◌≡◌, ◌≤◌, length};
ghost use Rattle.rx_text.specs.Blanks.{is_blank, without_blanks_at_end, without_blanks_in_front, stripped};

/// Whether a byte is a blank: a space (0x20) or a tab (0x09). No other byte is one.
pub fn is_blank(byte: u8) -> bool
    ensures blank { result ≡ is_blank byte }
{
    byte == b' ' || byte == b'\t'
}

/// The text without the blanks in front of it. What stands behind its first other byte stays,
/// blanks too.
pub fn strip_front(text: &[u8]) -> &[u8]
    ensures rest { result.now ≡ without_blanks_in_front text.now }
    ensures no_longer { length result.now ≤ length text.now }
{
    let mut rest = text;
    while let [first, tail @ ..] = rest {
        if !is_blank(*first) {
            break;
        }
        rest = tail;
    }
    rest
}

// The text without the blanks at its end.
fn strip_end(text: &[u8]) -> &[u8]
    ensures rest { result.now ≡ without_blanks_at_end text.now }
    ensures no_longer { length result.now ≤ length text.now }
{
    let mut rest = text;
    while let [front @ .., last] = rest {
        if !is_blank(*last) {
            break;
        }
        rest = front;
    }
    rest
}

/// The text without its outer blanks: those in front of it and those at its end. Blanks between
/// other bytes stay. A text of blanks alone gives the empty text.
pub fn strip(text: &[u8]) -> &[u8]
    ensures stripped { result.now ≡ stripped text.now }
    ensures no_longer { length result.now ≤ length text.now }
{
    strip_end(strip_front(text))
}
