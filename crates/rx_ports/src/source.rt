// An input.
ghost use Rattle.std.specs.Prelude.{◌≡◌, ◌<◌, ℕ, List, Option};
ghost use Rattle.rx_ports.specs.Causes.{HasCause};
ghost use Rattle.rx_ports.specs.Sources.{Takes};

use std::alloc::Global;

/// What a `take` gives.
#[derive(Debug, Drop)]
pub enum Taken {
    /// The next bytes, at least one.
    Bytes(Vec<u8>),
    /// No byte is left.
    End,
    /// The input could not be read. No byte was taken, and the count of faults has risen.
    Failed,
    /// There was no memory for the bytes. No byte was taken.
    NoMemory,
}

/// Bytes that are taken from the front.
pub trait Source {
    /// The bytes that are left, where the source tells them.
    ghost left: { Self → Option (List ℕ) };

    /// How often a call has failed.
    ghost faults: { Self → ℕ };

    /// Takes the next bytes, from 1 to `most` of them.
    fn take(&mut self, alloc: Global, most: usize) -> Taken
        requires { 0 < most }
        ensures bytes { Takes most (left self.old) (left self.new) result }
        ensures cause { HasCause (faults self.old) (faults self.new) (result ≡ Taken.Failed) };
}
