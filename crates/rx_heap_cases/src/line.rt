// A line of the input.
use rx_heap::{Kind, OutOfMemory, Text, Value};
use std::alloc::{AllocError, Global};

/// The words of a line. The first is the name of the call.
pub struct Line {
    words: Vec<Vec<u8>>,
}

impl Drop for Line {
    fn drop(self) {
        let Line { words: _ } = self;
    }
}

// The number that some digits write.
fn number_of(digits: &[u8]) -> u32 {
    let mut number = 0u32;
    for digit in digits {
        number = number
            .saturating_mul(10)
            .saturating_add(u32::from(digit.saturating_sub(b'0').min(9)));
    }
    number
}

impl Line {
    /// Reads the words of a line.
    pub fn read(alloc: Global, text: &str) -> Result<Line, AllocError> {
        let mut words = Vec::new(alloc);
        for word in text.split_whitespace() {
            words.push(Vec::from_slice(alloc, word.as_bytes())?)?;
        }
        Ok(Line { words })
    }

    /// The word at a place, or none where no word stands there.
    pub fn word(&self, place: usize) -> &[u8] {
        match self.words.get(place) {
            Some(word) => word.as_slice(),
            None => &[],
        }
    }

    /// The number at a place, or 0 where none stands there.
    pub fn number(&self, place: usize) -> u32 {
        number_of(self.word(place))
    }

    /// The text at a place. Bytes behind the most that a text may have are left out.
    pub fn text(&self, alloc: Global, place: usize) -> Result<Text, OutOfMemory> {
        let word = self.word(place);
        let most = word.len().min(Text::LONGEST);
        Text::from_slice(alloc, &word[..most])
    }

    /// The value at a place.
    pub fn value(&self, alloc: Global, place: usize) -> Result<Value, OutOfMemory> {
        match self.word(place) {
            [b'$', digits @ ..] => Ok(Value::Ref(number_of(digits))),
            _ => Ok(Value::Str(self.text(alloc, place)?)),
        }
    }

    /// The kind at a place: plain where it is no other.
    pub fn kind(&self, place: usize) -> Kind {
        match self.word(place) {
            b"class" => Kind::ClassObject,
            b"array" => Kind::Array,
            b"queue" => Kind::Queue,
            b"directory" => Kind::Directory,
            b"message" => Kind::Message,
            _ => Kind::Plain,
        }
    }
}
