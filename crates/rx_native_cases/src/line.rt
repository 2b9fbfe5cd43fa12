// A line of the input.
use rx_escape::unescape;
use rx_tree::{OutOfMemory, Text, Value};
use std::alloc::{AllocError, Global};

/// The words of a line. The first is the name of the call.
pub struct Line {
    words: Vec<Vec<u8>>,
}

impl Drop for Line {
    fn drop(self) {
        let Line { words: _ } = self;
    }
}

// The number that some digits write.
fn number_of(digits: &[u8]) -> u32 {
    let mut number = 0u32;
    for digit in digits {
        number = number
            .saturating_mul(10)
            .saturating_add(u32::from(digit.saturating_sub(b'0').min(9)));
    }
    number
}

/// A text of some bytes. Bytes behind the most that a text may have are left out.
pub fn text_of(alloc: Global, bytes: &[u8]) -> Result<Text, OutOfMemory> {
    let most = bytes.len().min(Text::LONGEST);
    Text::from_slice(alloc, &bytes[..most])
}

// The value of a word, or none where it stands for an argument that is left out.
fn value_of(alloc: Global, word: &[u8]) -> Result<Option<Value>, OutOfMemory> {
    match word {
        b"-" => Ok(None),
        b"''" => Ok(Some(Value::Str(text_of(alloc, &[])?))),
        [b'$', digits @ ..] => Ok(Some(Value::Ref(number_of(digits)))),
        _ => Ok(Some(Value::Str(text_of(alloc, unescape(alloc, word)?.as_slice())?))),
    }
}

impl Line {
    /// Reads the words of a line.
    pub fn read(alloc: Global, text: &str) -> Result<Line, AllocError> {
        let mut words = Vec::new(alloc);
        for word in text.split_whitespace() {
            words.push(Vec::from_slice(alloc, word.as_bytes())?)?;
        }
        Ok(Line { words })
    }

    /// The words.
    pub fn words(&self) -> &[Vec<u8>] {
        self.words.as_slice()
    }

    /// The word at a place, or none where no word stands there.
    pub fn word(&self, place: usize) -> &[u8] {
        match self.words.get(place) {
            Some(word) => word.as_slice(),
            None => &[],
        }
    }

    /// The number at a place, or 0 where none stands there.
    pub fn number(&self, place: usize) -> u32 {
        number_of(self.word(place))
    }

    /// The receiver at a place.
    pub fn target(&self, alloc: Global, place: usize) -> Result<Value, OutOfMemory> {
        match value_of(alloc, self.word(place))? {
            Some(value) => Ok(value),
            None => Ok(Value::Str(text_of(alloc, &[])?)),
        }
    }

    /// The arguments from a place on.
    pub fn arguments(&self, alloc: Global, from: usize) -> Result<Vec<Option<Value>>, OutOfMemory> {
        let mut arguments = Vec::new(alloc);
        for (place, word) in self.words.iter().enumerate() {
            if place >= from {
                arguments.push(value_of(alloc, word.as_slice())?)?;
            }
        }
        Ok(arguments)
    }
}
