// What comes of a call.
use rx_answers::{Bytes, Number, Refused};
use rx_escape::escape;
use std::alloc::{AllocError, Global};

/// What comes of a call.
#[derive(Drop)]
pub enum Answer {
    /// A text.
    Text(Vec<u8>),
    /// A number.
    Number(u64),
    /// The object of this number.
    Object(u32),
    /// The error of this number is raised.
    Raised(u8),
    /// No function has that name.
    Unknown,
}

// The most bytes of a text that is told whole.
const LONGEST_TOLD: usize = 200;

impl Answer {
    /// Whether no function has the name.
    pub fn is_unknown(&self) -> bool {
        matches!(self, Answer::Unknown)
    }

    /// The answer as a line of text. Of a long text the number of bytes is told.
    pub fn told(&self, alloc: Global) -> Result<String, AllocError> {
        match self {
            Answer::Text(text) if text.len() > LONGEST_TOLD => {
                format!(in alloc; "{} bytes", text.len())
            }
            Answer::Text(text) => {
                let text = escape(alloc, text.as_slice())?;
                format!(in alloc; "\"{text}\"")
            }
            Answer::Number(number) => format!(in alloc; "{number}"),
            Answer::Object(object) => format!(in alloc; "object {object}"),
            Answer::Raised(number) => format!(in alloc; "error {number}"),
            Answer::Unknown => format!(in alloc; "no such function"),
        }
    }
}

/// What a function comes to that gives a text.
pub fn text_answer(answer: Bytes) -> Result<Answer, AllocError> {
    match answer {
        Ok(text) => Ok(Answer::Text(text)),
        Err(refused) => refusal(refused),
    }
}

/// What a function comes to that gives a number.
pub fn number_answer(answer: Number) -> Result<Answer, AllocError> {
    match answer {
        Ok(number) => Ok(Answer::Number(number)),
        Err(refused) => refusal(refused),
    }
}

/// What a refused call comes to.
pub fn refusal(refused: Refused) -> Result<Answer, AllocError> {
    match refused {
        Refused::Raised(number) => Ok(Answer::Raised(number)),
        Refused::OutOfMemory => Err(AllocError),
    }
}
