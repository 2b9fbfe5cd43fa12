// The section of a text that a trigger ends.
ghost use Rattle.std.specs.Prelude.{◌≡◌, ◌+◌, ◌<◌, ◌≤◌, length};
ghost use Rattle.rx_template.specs.Sections.{IsPlace, bytes_between, by_position, by_string, end_of, place_of, section_before};

use crate::template::TPart;
use memchr::memmem;

/// Where the next section begins, and where the last match is: places of the text, counted from 1.
#[derive(Clone, Copy)]
pub(crate) struct Marks {
    pub start: usize,
    pub found: usize,
}

/// A section of a text: its first place, the place behind its last, and the marks for the next section.
#[derive(Clone, Copy)]
pub(crate) struct Section {
    pub from: usize,
    pub to: usize,
    pub next: Marks,
}

/// The place behind the last byte of a text.
pub(crate) fn end_of(text: &[u8]) -> usize
    ensures { result ≡ end_of text.now }
{
    text.len() + 1
}

/// The bytes of a text from a place on, up to another one; none where that one isn't behind it.
pub(crate) fn bytes_between(text: &[u8], from: usize, to: usize) -> &[u8]
    ensures { result.now ≡ bytes_between text.now from to }
{
    let front = &text[..to.saturating_sub(1).min(text.len())];
    &front[from.saturating_sub(1).min(front.len())..]
}

// The first place of a string from a place on, or 0.
fn place_of(string: &[u8], text: &[u8], from: usize) -> usize
    requires { IsPlace text.now from }
    ensures place { result ≡ place_of string.now text.now from }
    ensures fits { 0 < result → result + length string.now ≤ end_of text.now }
{
    if string.is_empty() {
        return 0;
    }
    match memmem::find(&text[from - 1..], string) {
        Some(at) => from + at,
        None => 0,
    }
}

// The section that a string of some bytes ends at a place, or that it doesn't end where the place is 0.
fn by_string(text: &[u8], marks: Marks, width: usize, place: usize) -> Section
    requires { 0 < place → place + width ≤ end_of text.now }
    ensures { result ≡ by_string text.now marks width place }
{
    let end = end_of(text);
    if place == 0 {
        return Section {
            from: marks.start,
            to: end,
            next: Marks {
                start: end,
                found: end,
            },
        };
    }
    Section {
        from: marks.start,
        to: place,
        next: Marks {
            start: place + width,
            found: place,
        },
    }
}

// The section that begins at a place and that a position ends.
fn by_position(text: &[u8], marks: Marks, from: usize, position: usize) -> Section
    ensures { result ≡ by_position text.now marks from position }
{
    let end = end_of(text);
    let place = position.max(1).min(end);
    Section {
        from,
        to: if marks.found < place { place } else { end },
        next: Marks {
            start: place,
            found: place,
        },
    }
}

/// The section in front of a trigger, where these are the marks.
pub(crate) fn section_before(trigger: &TPart, text: &[u8], marks: Marks) -> Section
    requires { IsPlace text.now marks.start }
    ensures section { result ≡ section_before trigger.now text.now marks }
    ensures start { IsPlace text.now result.next.start }
{
    match trigger {
        TPart::Literal(string) => {
            let string = string.as_slice();
            let place = place_of(string, text, marks.start);
            by_string(text, marks, string.len(), place)
        }
        TPart::At(position) => by_position(text, marks, marks.start, *position as usize),
        TPart::Forward(count) => {
            let position = marks.found.saturating_add(*count as usize);
            by_position(text, marks, marks.found, position)
        }
        TPart::Backward(count) => {
            let position = marks.found.saturating_sub(*count as usize);
            by_position(text, marks, marks.start, position)
        }
        TPart::Target(_) | TPart::Period => Section {
            from: marks.start,
            to: marks.start,
            next: marks,
        },
    }
}
