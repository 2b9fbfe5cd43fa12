// The standard streams.
ghost use Rattle.std.specs.Prelude.{◌≡◌, ◌≢◌, ◌<◌, None};
ghost use Rattle.rx_ports.specs.Causes.{HasCause};
ghost use Rattle.rx_ports.specs.Sinks.{Puts};
ghost use Rattle.rx_ports.specs.Sources.{Takes};

use super::transfers::{take_piece, write_whole};
use crate::{Accepted, Sink, Source, Taken};
use std::alloc::Global;
use std::io::{Read, Write};
use std::marker::Model;

/// Standard input, or any other reader. It tells nothing of what is left.
pub struct StdSource<R: Read> {
    reader: R,
    faults: u64,
}

impl<R: Read + Drop> Drop for StdSource<R> {
    fn drop(self) {
        let StdSource {
            reader: _,
            faults: _,
        } = self;
    }
}

impl<R: Read> Model for StdSource<R> {
    ghost use Rattle.rx_ports.specs.Streams.{StreamState};

    ghost Value = { StreamState };

    ghost view = { λ s. record { bytes = R.remaining s.reader; faults = s.faults } };
}

impl<R: Read> StdSource<R> {
    /// An input that takes what this reader gives.
    pub fn new(reader: R) -> Self
        ensures bytes { result.bytes ≡ R.remaining reader }
        ensures faults { result.faults ≡ 0 }
    {
        StdSource { reader, faults: 0 }
    }
}

impl<R: Read> Source for StdSource<R> {
    ghost left = { λ _. None };

    ghost faults = { λ s. s.faults };

    /// Takes the next bytes, from 1 to `most` of them, by one read, which may wait for them.
    fn take(&mut self, alloc: Global, most: usize) -> Taken
        requires { 0 < most }
        ensures bytes { Takes most self.old.bytes self.new.bytes result }
        ensures cause { HasCause self.old.faults self.new.faults (result ≡ Taken.Failed) }
        ensures quiet { result ≢ Taken.Failed → self.new.faults ≡ self.old.faults }
    {
        let answer = take_piece(alloc, &mut self.reader, most);
        if matches!(&answer, Taken::Failed) {
            self.faults = self.faults.saturating_add(1);
        }
        answer
    }
}

// Writes all of the bytes, and counts a fault.
fn put_counting<W: Write>(writer: &mut W, faults: &mut u64, bytes: &[u8]) -> Accepted
    ensures bytes { Puts (W.contents writer.old) (W.contents writer.new) bytes.now result }
    ensures cause { HasCause faults.old faults.new (result ≡ Accepted.Failed) }
    ensures quiet { result ≢ Accepted.Failed → faults.new ≡ faults.old }
{
    let answer = write_whole(writer, bytes);
    if answer == Accepted::Failed {
        *faults = faults.saturating_add(1);
    }
    answer
}

/// Standard output, or any other writer. It tells nothing of what it has accepted.
pub struct StdOut<W: Write> {
    writer: W,
    faults: u64,
}

impl<W: Write + Drop> Drop for StdOut<W> {
    fn drop(self) {
        let StdOut {
            writer: _,
            faults: _,
        } = self;
    }
}

impl<W: Write> Model for StdOut<W> {
    ghost use Rattle.rx_ports.specs.Streams.{StreamState};

    ghost Value = { StreamState };

    ghost view = { λ s. record { bytes = W.contents s.writer; faults = s.faults } };
}

impl<W: Write> StdOut<W> {
    /// An output that writes to this writer.
    pub fn new(writer: W) -> Self
        ensures bytes { result.bytes ≡ W.contents writer }
        ensures faults { result.faults ≡ 0 }
    {
        StdOut { writer, faults: 0 }
    }
}

impl<W: Write> Sink for StdOut<W> {
    ghost held = { λ _. None };

    ghost faults = { λ s. s.faults };

    /// Writes all of the bytes, and flushes the writer.
    fn put(&mut self, bytes: &[u8]) -> Accepted
        ensures bytes { Puts self.old.bytes self.new.bytes bytes.now result }
        ensures cause { HasCause self.old.faults self.new.faults (result ≡ Accepted.Failed) }
        ensures quiet { result ≢ Accepted.Failed → self.new.faults ≡ self.old.faults }
    {
        put_counting(&mut self.writer, &mut self.faults, bytes)
    }
}

/// Standard error, or any other writer. It tells nothing of what it has accepted.
pub struct StdErr<W: Write> {
    writer: W,
    faults: u64,
}

impl<W: Write + Drop> Drop for StdErr<W> {
    fn drop(self) {
        let StdErr {
            writer: _,
            faults: _,
        } = self;
    }
}

impl<W: Write> Model for StdErr<W> {
    ghost use Rattle.rx_ports.specs.Streams.{StreamState};

    ghost Value = { StreamState };

    ghost view = { λ s. record { bytes = W.contents s.writer; faults = s.faults } };
}

impl<W: Write> StdErr<W> {
    /// An output that writes to this writer.
    pub fn new(writer: W) -> Self
        ensures bytes { result.bytes ≡ W.contents writer }
        ensures faults { result.faults ≡ 0 }
    {
        StdErr { writer, faults: 0 }
    }
}

impl<W: Write> Sink for StdErr<W> {
    ghost held = { λ _. None };

    ghost faults = { λ s. s.faults };

    /// Writes all of the bytes, and flushes the writer.
    fn put(&mut self, bytes: &[u8]) -> Accepted
        ensures bytes { Puts self.old.bytes self.new.bytes bytes.now result }
        ensures cause { HasCause self.old.faults self.new.faults (result ≡ Accepted.Failed) }
        ensures quiet { result ≢ Accepted.Failed → self.new.faults ≡ self.old.faults }
    {
        put_counting(&mut self.writer, &mut self.faults, bytes)
    }
}
