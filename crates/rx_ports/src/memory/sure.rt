// An output and an input in memory that never fail.
ghost use Rattle.std.specs.Prelude.{◌≡◌, ◌≢◌, ◌<◌, [], Some};
ghost use Rattle.rx_ports.specs.Causes.{HasCause};
ghost use Rattle.rx_ports.specs.Sinks.{Puts};
ghost use Rattle.rx_ports.specs.Sources.{Takes, GivesAllThereIs};

use crate::{Accepted, Sink, Source, Taken};
use std::alloc::Global;
use std::marker::Model;

/// An output in memory that never fails. In contracts it is the list of the bytes that it accepted.
pub struct SureSink {
    bytes: Vec<u8>,
}

impl Drop for SureSink {
    fn drop(self) {
        let SureSink { bytes: _ } = self;
    }
}

impl Model for SureSink {
    ghost use Rattle.std.specs.Prelude.{ℕ, List};

    ghost Value = { List ℕ };

    ghost view = { λ s. s.bytes.items };
}

impl SureSink {
    /// An empty sink.
    pub fn new(alloc: Global) -> Self
        ensures { result ≡ [] }
    {
        SureSink {
            bytes: Vec::new(alloc),
        }
    }

    /// The bytes that were accepted.
    pub fn bytes(&self) -> &[u8]
        ensures { result.now ≡ self.now }
    {
        self.bytes.as_slice()
    }
}

impl Sink for SureSink {
    ghost held = { λ s. Some s };

    ghost faults = { λ _. 0 };

    /// Appends all of the bytes, or for want of memory none.
    fn put(&mut self, bytes: &[u8]) -> Accepted
        ensures bytes { Puts (Some self.old) (Some self.new) bytes.now result }
        ensures cause { HasCause 0 0 (result ≡ Accepted.Failed) }
        ensures sure { result ≢ Accepted.Failed }
        ensures unchanged { result ≡ Accepted.NoMemory → self.new ≡ self.old }
    {
        match self.bytes.extend_from_slice(bytes) {
            Ok(()) => Accepted::All,
            Err(_) => Accepted::NoMemory,
        }
    }
}

/// An input in memory that never fails. In contracts it is the list of the bytes that are left.
pub struct SureSource {
    bytes: Vec<u8>,
    at: usize,
}

impl Drop for SureSource {
    fn drop(self) {
        let SureSource { bytes: _, at: _ } = self;
    }
}

impl Model for SureSource {
    ghost use Rattle.std.specs.Prelude.{ℕ, List, ◌≤◌, length, drop};

    ghost Value = { List ℕ };

    ghost view = { λ s. drop s.at s.bytes.items };

    ghost invariant = { λ s. s.at ≤ length s.bytes.items };
}

impl SureSource {
    /// An input of these bytes.
    pub fn new(bytes: Vec<u8>) -> Self
        ensures { result ≡ bytes.items }
    {
        SureSource { bytes, at: 0 }
    }

    /// The bytes that are left.
    pub fn left(&self) -> &[u8]
        ensures { result.now ≡ self.now }
    {
        &self.bytes[self.at..]
    }
}

impl Source for SureSource {
    ghost left = { λ s. Some s };

    ghost faults = { λ _. 0 };

    /// Takes the next `most` bytes, or all that are left where they are fewer.
    fn take(&mut self, alloc: Global, most: usize) -> Taken
        requires { 0 < most }
        ensures bytes { Takes most (Some self.old) (Some self.new) result }
        ensures cause { HasCause 0 0 (result ≡ Taken.Failed) }
        ensures sure { result ≢ Taken.Failed }
        ensures as_many { GivesAllThereIs most self.old result }
    {
        if self.at == self.bytes.len() {
            return Taken::End;
        }
        let count = most.min(self.bytes.len() - self.at);
        let left = &self.bytes[self.at..];
        match Vec::from_slice(alloc, &left[..count]) {
            Ok(front) => {
                self.at += count;
                Taken::Bytes(front)
            }
            Err(_) => Taken::NoMemory,
        }
    }
}
