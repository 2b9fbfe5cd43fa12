// An output in memory that fails where it is told to.
ghost use Rattle.std.specs.Prelude.{◌≡◌, ◌≢◌, [], Some};
ghost use Rattle.rx_ports.specs.Causes.{HasCause, FailsNext};
ghost use Rattle.rx_ports.specs.Sinks.{Puts};
ghost use Rattle.rx_ports.specs.MemorySinks.{sink_after};

use crate::{Accepted, Sink};
use std::alloc::Global;
use std::marker::Model;

/// An output in memory that can be told to fail. In contracts it is the record `SinkState`.
pub struct MemSink {
    bytes: Vec<u8>,
    fail: Vec<u64>,
    keep: u64,
    calls: u64,
    faults: u64,
}

impl Drop for MemSink {
    fn drop(self) {
        let MemSink {
            bytes: _,
            fail: _,
            keep: _,
            calls: _,
            faults: _,
        } = self;
    }
}

impl Model for MemSink {
    ghost use Rattle.rx_ports.specs.MemorySinks.{SinkState};

    ghost Value = { SinkState };

    ghost view = { λ s. record {
      bytes = s.bytes.items;
      fail = s.fail.items;
      keep = s.keep;
      calls = s.calls;
      faults = s.faults;
    } };
}

impl MemSink {
    /// An empty sink. `fail` has the numbers of the calls of `put` that are to fail, counted from
    /// 1, and `keep` is how many first bytes a failing call accepts, if it is given as many.
    pub fn new(alloc: Global, fail: Vec<u64>, keep: u64) -> Self
        ensures empty { result.bytes ≡ [] }
        ensures fail { result.fail ≡ fail.items }
        ensures keep { result.keep ≡ keep }
        ensures calls { result.calls ≡ 0 }
        ensures faults { result.faults ≡ 0 }
    {
        MemSink {
            bytes: Vec::new(alloc),
            fail,
            keep,
            calls: 0,
            faults: 0,
        }
    }

    /// The bytes that were accepted.
    pub fn bytes(&self) -> &[u8]
        ensures { result.now ≡ self.now.bytes }
    {
        self.bytes.as_slice()
    }
}

impl Sink for MemSink {
    ghost held = { λ s. Some s.bytes };

    ghost faults = { λ s. s.faults };

    /// Appends the bytes. A call that is to fail accepts the first of them only, as many as the
    /// sink was told to keep.
    fn put(&mut self, bytes: &[u8]) -> Accepted
        ensures bytes { Puts (Some self.old.bytes) (Some self.new.bytes) bytes.now result }
        ensures cause { HasCause self.old.faults self.new.faults (result ≡ Accepted.Failed) }

        // When it fails, but for want of memory, and what becomes of the sink.
        ensures failed_where_told { result ≡ Accepted.Failed →
            FailsNext self.old.fail self.old.calls }
        ensures not_all_where_told { FailsNext self.old.fail self.old.calls →
            result ≢ Accepted.All }
        ensures after { self.new ≡ sink_after self.old bytes.now result }
    {
        self.calls = self.calls.saturating_add(1);
        let fails = self.fail.contains(&self.calls);
        let count = if fails {
            usize::try_from(self.keep)
                .unwrap_or(bytes.len())
                .min(bytes.len())
        } else {
            bytes.len()
        };
        if self.bytes.extend_from_slice(&bytes[..count]).is_err() {
            return Accepted::NoMemory;
        }
        if fails {
            self.faults = self.faults.saturating_add(1);
            return Accepted::Failed;
        }
        Accepted::All
    }
}
