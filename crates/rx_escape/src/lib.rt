//! Bytes as a line of text, for programs whose input and output are tables of cases.
//!
//! `\n`, `\r`, `\t` and `\\` are one byte, and `\xFF` is the byte of that number. Other bytes from blank to `~` stand for
//! themselves.
#![tactic(auto)]

use std::alloc::{AllocError, Global};

// The byte that a letter behind a backslash stands for.
fn escaped(letter: u8) -> u8 {
    match letter {
        b'n' => b'\n',
        b'r' => b'\r',
        b't' => b'\t',
        other => other,
    }
}

fn digit(letter: u8) -> u8 {
    match letter {
        b'0'..=b'9' => letter - b'0',
        b'A'..=b'F' => letter - b'A' + 10,
        _ => 0,
    }
}

/// The bytes that a text stands for.
pub fn unescape(alloc: Global, line: &[u8]) -> Result<Vec<u8>, AllocError> {
    let mut bytes = Vec::new(alloc);
    let mut rest = line;
    while let [first, more @ ..] = rest {
        rest = more;
        match (*first, more) {
            (b'\\', [b'x', high, low, behind @ ..]) => {
                bytes.push(digit(*high) << 4 | digit(*low))?;
                rest = behind;
            }
            (b'\\', [letter, behind @ ..]) => {
                bytes.push(escaped(*letter))?;
                rest = behind;
            }
            _ => bytes.push(*first)?,
        }
    }
    Ok(bytes)
}

/// The text that stands for some bytes.
pub fn escape(alloc: Global, bytes: &[u8]) -> Result<String, AllocError> {
    let mut text = String::new(alloc);
    for byte in bytes {
        match *byte {
            b'\n' => text.push_str("\\n")?,
            b'\r' => text.push_str("\\r")?,
            b'\t' => text.push_str("\\t")?,
            b'\\' => text.push_str("\\\\")?,
            b' '..=b'~' => text.push(char::from(*byte))?,
            other => text.push_str(format!(in alloc; "\\x{other:02X}")?.as_str())?,
        }
    }
    Ok(text)
}
