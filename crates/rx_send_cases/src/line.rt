// A line of the input.
use rx_escape::unescape;
use rx_tree::{OutOfMemory, Text, Value};
use sqlite_items::Items;
use std::alloc::Global;

/// A word of a line.
#[derive(Drop)]
pub enum Word {
    /// It stands between quotes.
    Quoted(Vec<u8>),
    Bare(Vec<u8>),
}

/// The words of a line. The first is the name of the call.
pub struct Line {
    words: Vec<Word>,
}

impl Drop for Line {
    fn drop(self) {
        let Line { words: _ } = self;
    }
}

/// A text of some bytes. Bytes behind the most that a text may have are left out.
pub fn text_of(alloc: Global, bytes: &[u8]) -> Result<Text, OutOfMemory> {
    let most = bytes.len().min(Text::LONGEST);
    Text::from_slice(alloc, &bytes[..most])
}

// The number that some digits write.
fn number_of(digits: &[u8]) -> u32 {
    let mut number = 0u32;
    for digit in digits {
        number = number
            .saturating_mul(10)
            .saturating_add(u32::from(digit.saturating_sub(b'0').min(9)));
    }
    number
}

// The value of a word, or none where it stands for an argument that is omitted.
fn value_of(alloc: Global, word: &Word) -> Result<Option<Value>, OutOfMemory> {
    match word {
        Word::Quoted(bytes) => Ok(Some(Value::Str(text_of(alloc, bytes.as_slice())?))),
        Word::Bare(bytes) => match bytes.as_slice() {
            b"-" => Ok(None),
            [b'#', digits @ ..] => Ok(Some(Value::Ref(number_of(digits)))),
            other => Ok(Some(Value::Str(text_of(alloc, other)?))),
        },
    }
}

fn read_bare(alloc: Global, words: &mut Vec<Word>, piece: &str) -> Result<(), OutOfMemory> {
    for word in piece.split_whitespace() {
        words.push(Word::Bare(unescape(alloc, word.as_bytes())?))?;
    }
    Ok(())
}

impl Line {
    /// Reads the words of a line. What stands at an odd place between its quotes is a text.
    pub fn read(alloc: Global, text: &str) -> Result<Line, OutOfMemory> {
        let mut words = Vec::new(alloc);
        let mut is_quoted = false;
        for piece in text.split('"') {
            if is_quoted {
                words.push(Word::Quoted(unescape(alloc, piece.as_bytes())?))?;
            } else {
                read_bare(alloc, &mut words, piece)?;
            }
            is_quoted = !is_quoted;
        }
        Ok(Line { words })
    }

    /// How many words there are.
    pub fn count(&self) -> usize {
        self.words.len()
    }

    /// The bytes of the word at a place, or none where no word stands there.
    pub fn bytes(&self, place: usize) -> &[u8] {
        match self.words.get(place) {
            Some(Word::Quoted(bytes)) => bytes.as_slice(),
            Some(Word::Bare(bytes)) => bytes.as_slice(),
            None => &[],
        }
    }

    /// Whether a word stands at a place, without quotes.
    pub fn is_at(&self, place: usize, word: &[u8]) -> bool {
        match self.words.get(place) {
            Some(Word::Bare(bytes)) => bytes.as_slice() == word,
            _ => false,
        }
    }

    /// Whether a word stands at a place, or at one behind it.
    pub fn has(&self, from: usize, word: &[u8]) -> bool {
        for place in from..self.count() {
            if self.is_at(place, word) {
                return true;
            }
        }
        false
    }

    /// The number at a place, also that of an object, or 0 where none stands there.
    pub fn number(&self, place: usize) -> u32 {
        match self.bytes(place) {
            [b'#', digits @ ..] => number_of(digits),
            digits => number_of(digits),
        }
    }

    /// The receiver at a place: the empty string where none stands there.
    pub fn target(&self, alloc: Global, place: usize) -> Result<Value, OutOfMemory> {
        if let Some(word) = self.words.get(place) {
            if let Some(value) = value_of(alloc, word)? {
                return Ok(value);
            }
        }
        Ok(Value::Str(text_of(alloc, &[])?))
    }

    /// The arguments from a place on.
    pub fn arguments(
        &self,
        alloc: Global,
        from: usize,
    ) -> Result<Items<Option<Value>>, OutOfMemory> {
        let mut arguments = Items::new(alloc);
        for (place, word) in self.words.iter().enumerate() {
            if place >= from {
                arguments.push(value_of(alloc, word)?)?;
            }
        }
        Ok(arguments)
    }
}
