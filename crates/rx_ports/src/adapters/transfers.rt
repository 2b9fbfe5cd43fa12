// Bytes from any reader and to any writer, piece by piece, past interruptions.
ghost use Rattle.std.specs.Prelude.{◌<◌};
ghost use Rattle.std.specs.Io.{ReadsAtMost, WritesAtMost};
ghost use Rattle.std.specs.Io.KnownBytes.{ReadConsumes, WriteAppends, Keeps};
ghost use Rattle.rx_ports.specs.Sinks.{Puts};
ghost use Rattle.rx_ports.specs.Sources.{Takes};
ghost use Rattle.rx_ports.specs.Streams.{ReadsFront};

use crate::{Accepted, Fetched, Taken};
use std::alloc::Global;
use std::io;
use std::io::{ErrorKind, Read, Write};

// How many bytes one read asks for at most.
const PIECE: usize = 8192;

// Whether an error is want of memory, which is no fault.
pub(super) fn is_out_of_memory(error: &io::Error) -> bool {
    error.kind() == ErrorKind::OutOfMemory
}

// One read, again where a signal interrupts it.
fn read_piece<R: Read>(reader: &mut R, buffer: &mut [u8]) -> io::Result<usize>
    ensures bound { ReadsAtMost result buffer.new }
    ensures bytes { ReadConsumes (R.remaining reader.old) (R.remaining reader.new)
        result buffer.new }
{
    for _ in 0..u64::MAX {
        match reader.read(buffer) {
            Ok(count) => return Ok(count),
            Err(error) => {
                if error.kind() != ErrorKind::Interrupted {
                    return Err(error);
                }
            }
        }
    }
    Err(io::Error::from(ErrorKind::Interrupted))
}

// The first `most` bytes of a reader, or all up to its end.
pub(super) fn read_front<R: Read>(alloc: Global, reader: &mut R, most: usize) -> Fetched
    ensures { ReadsFront (R.remaining reader.old) most result }
{
    let mut front = Vec::new(alloc);
    let mut buffer = [0u8; PIECE];
    for _ in 0..u64::MAX {
        let room = PIECE.min(most - front.len());
        match read_piece(reader, &mut buffer[..room]) {
            Ok(0) => return Fetched::Bytes(front),
            Ok(count) => {
                if front.extend_from_slice(&buffer[..count]).is_err() {
                    return Fetched::NoMemory;
                }
            }
            Err(error) => {
                return if is_out_of_memory(&error) {
                    Fetched::NoMemory
                } else {
                    Fetched::Failed
                };
            }
        }
    }
    Fetched::Failed
}

// The next bytes of a reader. The memory is had first, so that no byte is lost for want of it.
pub(super) fn take_piece<R: Read>(alloc: Global, reader: &mut R, most: usize) -> Taken
    requires { 0 < most }
    ensures { Takes most (R.remaining reader.old) (R.remaining reader.new) result }
{
    let Ok(mut piece) = vec![in alloc; 0u8; PIECE.min(most)] else {
        return Taken::NoMemory;
    };
    match read_piece(reader, piece.as_mut_slice()) {
        Ok(0) => Taken::End,
        Ok(count) => {
            piece.truncate(count);
            Taken::Bytes(piece)
        }
        Err(error) => {
            if is_out_of_memory(&error) {
                Taken::NoMemory
            } else {
                Taken::Failed
            }
        }
    }
}

// Sends on what a writer keeps back, and says whether it could.
fn flush<W: Write>(writer: &mut W) -> Accepted
    ensures { Keeps (W.contents writer.old) (W.contents writer.new) }
{
    for _ in 0..u64::MAX {
        match writer.flush() {
            Ok(()) => return Accepted::All,
            Err(error) => {
                if is_out_of_memory(&error) {
                    return Accepted::NoMemory;
                }
                if error.kind() != ErrorKind::Interrupted {
                    return Accepted::Failed;
                }
            }
        }
    }
    Accepted::Failed
}

// One write, again where a signal interrupts it.
fn write_piece<W: Write>(writer: &mut W, bytes: &[u8]) -> io::Result<usize>
    ensures bound { WritesAtMost result bytes.now }
    ensures bytes { WriteAppends (W.contents writer.old) (W.contents writer.new)
        result bytes.now }
{
    for _ in 0..u64::MAX {
        match writer.write(bytes) {
            Ok(count) => return Ok(count),
            Err(error) => {
                if error.kind() != ErrorKind::Interrupted {
                    return Err(error);
                }
            }
        }
    }
    Err(io::Error::from(ErrorKind::Interrupted))
}

// Writes all of the bytes. A write that takes none of them is a fault.
pub(super) fn write_whole<W: Write>(writer: &mut W, bytes: &[u8]) -> Accepted
    ensures { Puts (W.contents writer.old) (W.contents writer.new) bytes.now result }
{
    let mut at = 0;
    while at < bytes.len() {
        match write_piece(writer, &bytes[at..]) {
            Ok(0) => return Accepted::Failed,
            Ok(count) => at += count,
            Err(error) => {
                return if is_out_of_memory(&error) {
                    Accepted::NoMemory
                } else {
                    Accepted::Failed
                };
            }
        }
    }
    flush(writer)
}
