// A line of the input.
use std::alloc::{AllocError, Global};

/// The words of a line. The first is the name of the call.
pub struct Line {
    words: Vec<Vec<u8>>,
}

impl Drop for Line {
    fn drop(self) {
        let Line { words: _ } = self;
    }
}

impl Line {
    /// Reads the words of a line.
    pub fn read(alloc: Global, text: &str) -> Result<Line, AllocError> {
        let mut words = Vec::new(alloc);
        for word in text.split_whitespace() {
            words.push(Vec::from_slice(alloc, word.as_bytes())?)?;
        }
        Ok(Line { words })
    }

    /// The words.
    pub fn words(&self) -> &[Vec<u8>] {
        self.words.as_slice()
    }

    /// The word at a place, or none where no word stands there.
    pub fn word(&self, place: usize) -> &[u8] {
        match self.words.get(place) {
            Some(word) => word.as_slice(),
            None => &[],
        }
    }

    /// The number at a place, or 0 where none stands there.
    pub fn number(&self, place: usize) -> u32 {
        let mut number = 0u32;
        for digit in self.word(place) {
            number = number
                .saturating_mul(10)
                .saturating_add(u32::from(digit.saturating_sub(b'0').min(9)));
        }
        number
    }

    /// Whether the side at a place is the class's own.
    pub fn is_class_side(&self, place: usize) -> bool {
        self.word(place) == b"class".as_slice()
    }
}
