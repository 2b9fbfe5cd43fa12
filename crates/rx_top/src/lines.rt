// A line of the input.
ghost use Rattle.std.specs.Prelude.{◌≡◌, ◌≤◌, length};
ghost use Rattle.rx_ports.specs.Causes.{HasCause};
ghost use Rattle.rx_top.specs.Lines.{IsNextByte, IsLine, IsLastLine, IsLineRead};

use rx_ports::{Source, Taken};
use rx_tree::Text;
use std::alloc::Global;

/// What reading a line of the input gives.
#[derive(Drop)]
pub enum LineRead {
    /// The next line, without the line feed that ends it.
    Line(Text),
    /// The last line, which the end of the input ends.
    Last(Text),
    /// The end of the input, behind no line.
    End,
    /// The input could not be read.
    Failed,
    NoMemory,
}

/// What reading a byte of the input gives.
#[derive(Clone, Copy, Debug, PartialEq, Eq)]
pub enum ByteRead {
    Byte(u8),
    End,
    Failed,
    NoMemory,
}

/// The most bytes of a line.
const LONGEST: usize = 1_048_576;

// The next byte of the input.
fn next_byte<I: Source>(alloc: Global, input: &mut I) -> ByteRead
    ensures byte { IsNextByte (I.left input.old) (I.left input.new) result }
    ensures cause { HasCause (I.faults input.old) (I.faults input.new) (result ≡ ByteRead.Failed) }
{
    match input.take(alloc, 1) {
        Taken::Bytes(bytes) => ByteRead::Byte(bytes[0]),
        Taken::End => ByteRead::End,
        Taken::Failed => ByteRead::Failed,
        Taken::NoMemory => ByteRead::NoMemory,
    }
}

// The line that these bytes are, or want of memory.
fn line_of(alloc: Global, bytes: &[u8]) -> LineRead
    requires fits { length bytes.now ≤ LONGEST }
    ensures { IsLine bytes.now result }
{
    match Text::from_slice(alloc, bytes) {
        Ok(line) => LineRead::Line(line),
        Err(_) => LineRead::NoMemory,
    }
}

// The line that these bytes are at the end of the input, which is none where there are no bytes; or want of memory.
fn last_line_of(alloc: Global, bytes: &[u8]) -> LineRead
    requires fits { length bytes.now ≤ LONGEST }
    ensures { IsLastLine bytes.now result }
{
    if bytes.is_empty() {
        return LineRead::End;
    }
    match Text::from_slice(alloc, bytes) {
        Ok(line) => LineRead::Last(line),
        Err(_) => LineRead::NoMemory,
    }
}

/// The next line of the input, whose bytes are taken one by one. It ends at a line feed, or after 1,048,576 bytes without one, or
/// at the end of the input. No byte behind it is taken.
pub fn read_line<I: Source>(alloc: Global, input: &mut I) -> LineRead
    ensures line { IsLineRead (I.left input.old) (I.left input.new) result }
    ensures cause { HasCause (I.faults input.old) (I.faults input.new) (result ≡ LineRead.Failed) }
{
    let mut line = Vec::new(alloc);
    while line.len() < LONGEST {
        match next_byte(alloc, input) {
            ByteRead::Byte(b'\n') => return line_of(alloc, line.as_slice()),
            ByteRead::Byte(byte) => {
                if line.push(byte).is_err() {
                    return LineRead::NoMemory;
                }
            }
            ByteRead::End => return last_line_of(alloc, line.as_slice()),
            ByteRead::Failed => return LineRead::Failed,
            ByteRead::NoMemory => return LineRead::NoMemory,
        }
    }
    line_of(alloc, line.as_slice())
}
