// Files by name.
ghost use Rattle.std.specs.Prelude.{◌≡◌, ℕ, Option};
ghost use Rattle.rx_ports.specs.Causes.{HasCause};
ghost use Rattle.rx_ports.specs.Shelves.{Files, Fetches, KeepsOthers, HasFile};

use std::alloc::Global;

/// What a `fetch` gives.
#[derive(Debug, Drop)]
pub enum Fetched {
    /// The first bytes of the file, as many as were asked for or as it has.
    Bytes(Vec<u8>),
    /// There is no such file, or it could not be read. The count of faults has risen.
    Failed,
    /// There was no memory for the bytes.
    NoMemory,
}

/// What became of a `store`.
#[derive(Clone, Copy, Debug, PartialEq, Eq)]
pub enum Stored {
    /// The name has the bytes.
    Done,
    /// The bytes could not be stored. The count of faults has risen.
    Failed,
    /// There was no memory to store them.
    NoMemory,
}

/// A map from names to bytes.
pub trait Shelf {
    /// The map, where the shelf tells it.
    ghost files: { Self → Option Files };

    /// How often a call has failed.
    ghost faults: { Self → ℕ };

    /// The first `most` bytes of the name, or all where it has fewer. A missing name is a fault.
    fn fetch(&mut self, alloc: Global, name: &[u8], most: usize) -> Fetched
        ensures bytes { Fetches (files self.old) name.now most result }
        ensures kept { files self.new ≡ files self.old }
        ensures cause { HasCause (faults self.old) (faults self.new) (result ≡ Fetched.Failed) };

    /// Makes the name have just these bytes. After `Failed` or `NoMemory` it may have any bytes,
    /// or none. Every other name stays as it was, whatever the answer.
    fn store(&mut self, alloc: Global, name: &[u8], bytes: &[u8]) -> Stored
        ensures done { result ≡ Stored.Done → HasFile (files self.new) name.now bytes.now }
        ensures others { KeepsOthers (files self.old) (files self.new) name.now }
        ensures cause { HasCause (faults self.old) (faults self.new) (result ≡ Stored.Failed) };
}
