// A line of the input, and the answers.
ghost use Rattle.std.specs.Prelude.{◌≤◌, length};

use rx_escape::{escape, unescape};
use rx_tree::{Derived, OutOfMemory, Text, Value};
use std::alloc::{AllocError, Global};

/// A word of a line.
#[derive(Drop)]
pub enum Word {
    /// It stands between quotes.
    Quoted(Vec<u8>),
    Bare(Vec<u8>),
}

/// The words of a line. The first is the name of the call.
pub struct Line {
    words: Vec<Word>,
}

impl Drop for Line {
    fn drop(self) {
        let Line { words: _ } = self;
    }
}

/// A variable's name.
pub struct Name {
    pub derived: Derived,
}

impl Drop for Name {
    fn drop(self) {
        let Name { derived: _ } = self;
    }
}

impl Name {
    /// The compound of a stem with this number as its tail.
    pub fn numbered(alloc: Global, stem: &[u8], number: u64) -> Result<Name, AllocError> {
        let tail = format!(in alloc; "{number}")?;
        compound(alloc, stem, tail.as_bytes())
    }
}

/// Want of memory, as the library tells it.
pub fn wanting(_error: OutOfMemory) -> AllocError {
    AllocError
}

/// A text of some bytes; those behind the most that a text may have are left out.
pub fn text_of(alloc: Global, bytes: &[u8]) -> Result<Text, AllocError> {
    let most = bytes.len().min(16_777_216);
    Text::from_slice(alloc, &bytes[..most]).map_err(wanting)
}

fn compound(alloc: Global, stem: &[u8], tail: &[u8]) -> Result<Name, AllocError> {
    let stem = text_of(alloc, stem)?;
    let tail = text_of(alloc, tail)?;
    Ok(Name {
        derived: Derived::Compound(stem, tail),
    })
}

// The name of a variable that is written so.
fn name_of(alloc: Global, bytes: &[u8]) -> Result<Name, AllocError> {
    if let Some(at) = bytes.iter().position(|byte| *byte == b'|') {
        return compound(alloc, &bytes[..at], &bytes[at + 1..]);
    }
    let text = text_of(alloc, bytes)?;
    let derived = match bytes.last() {
        Some(b'.') => Derived::Stem(text),
        _ => Derived::Simple(text),
    };
    Ok(Name { derived })
}

fn read_bare(alloc: Global, words: &mut Vec<Word>, piece: &str) -> Result<(), AllocError> {
    for word in piece.split_whitespace() {
        words.push(Word::Bare(unescape(alloc, word.as_bytes())?))?;
    }
    Ok(())
}

impl Line {
    /// Reads the words of a line. What stands at an odd place between its quotes is a text.
    pub fn read(alloc: Global, text: &str) -> Result<Line, AllocError> {
        let mut words = Vec::new(alloc);
        let mut is_quoted = false;
        for piece in text.split('"') {
            if is_quoted {
                words.push(Word::Quoted(unescape(alloc, piece.as_bytes())?))?;
            } else {
                read_bare(alloc, &mut words, piece)?;
            }
            is_quoted = !is_quoted;
        }
        Ok(Line { words })
    }

    /// The words.
    pub fn words(&self) -> &[Word] {
        self.words.as_slice()
    }

    /// The bytes of the word at a place, or none where no word stands there.
    pub fn bytes(&self, place: usize) -> &[u8] {
        match self.words.get(place) {
            Some(Word::Quoted(bytes)) => bytes.as_slice(),
            Some(Word::Bare(bytes)) => bytes.as_slice(),
            None => &[],
        }
    }

    /// Whether the line is a call of this name.
    pub fn is_call(&self, name: &[u8]) -> bool {
        self.bytes(0) == name
    }

    /// The number at a place, or 0 where none stands there.
    pub fn number(&self, place: usize) -> u64 {
        number_of(self.bytes(place))
    }

    /// The variable's name at a place.
    pub fn name(&self, alloc: Global, place: usize) -> Result<Name, AllocError> {
        name_of(alloc, self.bytes(place))
    }
}

/// A text as a value.
pub fn value_of(alloc: Global, bytes: &[u8]) -> Result<Value, AllocError> {
    Ok(Value::Str(text_of(alloc, bytes)?))
}

/// The number that digits say, or 0 where it is none.
pub fn number_of(digits: &[u8]) -> u64 {
    let mut number = 0u64;
    for digit in digits {
        number = number
            .saturating_mul(10)
            .saturating_add(u64::from(digit.saturating_sub(b'0').min(9)));
    }
    number
}

// The most bytes of a text that is told whole.
const LONGEST_TOLD: usize = 200;

/// A text between quotes. Of a long one the number of bytes is told.
pub fn quoted(alloc: Global, bytes: &[u8]) -> Result<String, AllocError> {
    if bytes.len() > LONGEST_TOLD {
        return format!(in alloc; "{} bytes", bytes.len());
    }
    let text = escape(alloc, bytes)?;
    format!(in alloc; "\"{text}\"")
}

/// A value that a variable has, or that it has none.
pub fn told_value(alloc: Global, value: Option<&Value>) -> Result<String, AllocError> {
    match value {
        None => String::from_str(alloc, "unset"),
        Some(Value::Str(text)) => quoted(alloc, text.bytes()),
        Some(Value::Ref(object)) => format!(in alloc; "object {object}"),
    }
}
