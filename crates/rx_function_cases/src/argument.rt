// The arguments of a call.
use rx_escape::unescape;
use rx_tree::{Text, Value};
use sqlite_items::Items;
use std::alloc::{AllocError, Global};

#[derive(Drop)]
enum Argument {
    Omitted,
    Number(u64),
    Text(Vec<u8>),
}

impl Argument {
    // It as a text, and a number as its digits; none where it is left out.
    fn text(&self, alloc: Global) -> Result<Option<Text>, AllocError> {
        match self {
            Argument::Omitted => Ok(None),
            Argument::Number(number) => {
                let digits = format!(in alloc; "{number}")?;
                Ok(Some(text_of(alloc, digits.as_bytes())?))
            }
            Argument::Text(text) => Ok(Some(text_of(alloc, text.as_slice())?)),
        }
    }

    // It as a value: a number as the object of that number; none where it is left out.
    fn value(&self, alloc: Global) -> Result<Option<Value>, AllocError> {
        match self {
            Argument::Number(object) => Ok(Some(Value::Ref(u32::try_from(*object).unwrap_or(
                u32::MAX,
            )))),
            other => Ok(other.text(alloc)?.map(Value::Str)),
        }
    }
}

/// A text with the first of these bytes, as many as a text may have.
pub fn text_of(alloc: Global, bytes: &[u8]) -> Result<Text, AllocError> {
    Text::from_slice(alloc, &bytes[..bytes.len().min(Text::LONGEST)]).map_err(|_| AllocError)
}

/// The arguments of a call, by their places from 0 on.
#[derive(Drop)]
pub struct Arguments {
    arguments: Vec<Argument>,
}

// How many copies of a text are put together first, so that many copies take few steps.
const BLOCK: u64 = 1024;

fn push_copies(copies: &mut Vec<u8>, text: &[u8], count: u64) -> Result<(), AllocError> {
    for _ in 0..count {
        copies.extend_from_slice(text)?;
    }
    Ok(())
}

// So many copies of a text in a row.
fn repeated(alloc: Global, text: &[u8], count: u64) -> Result<Vec<u8>, AllocError> {
    let mut block = Vec::new(alloc);
    push_copies(&mut block, text, BLOCK)?;
    let mut copies = Vec::new(alloc);
    push_copies(&mut copies, block.as_slice(), count / BLOCK)?;
    push_copies(&mut copies, text, count % BLOCK)?;
    Ok(copies)
}

impl Arguments {
    /// Reads the arguments that stand on a line. What stands at an odd place between its quotes is a text.
    pub fn read(alloc: Global, line: &str) -> Result<Arguments, AllocError> {
        let mut read = Arguments {
            arguments: Vec::new(alloc),
        };
        let mut is_quoted = false;
        for piece in line.split('"') {
            if is_quoted {
                let text = unescape(alloc, piece.as_bytes())?;
                read.arguments.push(Argument::Text(text))?;
            } else {
                read.read_unquoted(alloc, piece)?;
            }
            is_quoted = !is_quoted;
        }
        Ok(read)
    }

    fn read_unquoted(&mut self, alloc: Global, piece: &str) -> Result<(), AllocError> {
        for word in piece.split_whitespace() {
            match word.strip_prefix("*") {
                Some(count) => self.repeat_last(alloc, count.parse().unwrap_or(0))?,
                None => self.arguments.push(match word.parse() {
                    Ok(number) => Argument::Number(number),
                    Err(_) => Argument::Omitted,
                })?,
            }
        }
        Ok(())
    }

    fn repeat_last(&mut self, alloc: Global, count: u64) -> Result<(), AllocError> {
        if let Some(Argument::Text(text)) = self.arguments.pop() {
            let text = repeated(alloc, text.as_slice(), count)?;
            self.arguments.push(Argument::Text(text))?;
        }
        Ok(())
    }

    /// The text at a place, or the empty text where none stands there.
    pub fn text(&self, place: usize) -> &[u8] {
        self.given_text(place).unwrap_or(&[])
    }

    /// The text at a place, if one stands there.
    pub fn given_text(&self, place: usize) -> Option<&[u8]> {
        match self.arguments.get(place) {
            Some(Argument::Text(text)) => Some(text.as_slice()),
            _ => None,
        }
    }

    /// The number at a place, if one stands there.
    pub fn number(&self, place: usize) -> Option<u64> {
        match self.arguments.get(place) {
            Some(Argument::Number(number)) => Some(*number),
            _ => None,
        }
    }

    /// The first byte of the text at a place, if it has one.
    pub fn byte(&self, place: usize) -> Option<u8> {
        self.given_text(place)?.first().copied()
    }

    /// The pad at a place, or the blank where none stands there.
    pub fn pad(&self, place: usize) -> u8 {
        self.byte(place).unwrap_or(b' ')
    }

    /// The number at a place, or 0 where none stands there.
    pub fn count(&self, place: usize) -> u64 {
        self.number(place).unwrap_or(0)
    }

    /// Whether there are none.
    pub fn is_empty(&self) -> bool {
        self.arguments.is_empty()
    }

    /// The arguments as texts; one that is left out has none.
    pub fn texts(&self, alloc: Global) -> Result<Vec<Option<Text>>, AllocError> {
        let mut texts = Vec::new(alloc);
        for argument in &self.arguments {
            texts.push(argument.text(alloc)?)?;
        }
        Ok(texts)
    }

    /// The texts that are given.
    pub fn given_texts(&self, alloc: Global) -> Result<Items<Text>, AllocError> {
        let mut texts = Items::new(alloc);
        for argument in &self.arguments {
            if let Some(text) = argument.text(alloc)? {
                texts.push(text)?;
            }
        }
        Ok(texts)
    }

    /// The arguments as values, a number as the object of that number; one that is left out has none.
    pub fn values(&self, alloc: Global) -> Result<Items<Option<Value>>, AllocError> {
        let mut values = Items::new(alloc);
        for argument in &self.arguments {
            values.push(argument.value(alloc)?)?;
        }
        Ok(values)
    }
}
