// An output.
ghost use Rattle.std.specs.Prelude.{◌≡◌, ℕ, List, Option};
ghost use Rattle.rx_ports.specs.Causes.{HasCause};
ghost use Rattle.rx_ports.specs.Sinks.{Puts};

/// What became of a `put`.
#[derive(Clone, Copy, Debug, PartialEq, Eq)]
pub enum Accepted {
    /// Every byte was accepted.
    All,
    /// Some first bytes were accepted, perhaps none or all. The count of faults has risen.
    Failed,
    /// There was no memory for the bytes. Some first bytes were accepted, perhaps none or all.
    NoMemory,
}

/// A place that accepts bytes, one after another.
pub trait Sink {
    /// The bytes that were accepted, where the sink tells them.
    ghost held: { Self → Option (List ℕ) };

    /// How often a call has failed.
    ghost faults: { Self → ℕ };

    /// Appends the bytes, or some first ones of them where the answer isn't `All`.
    fn put(&mut self, bytes: &[u8]) -> Accepted
        ensures bytes { Puts (held self.old) (held self.new) bytes.now result }
        ensures cause { HasCause (faults self.old) (faults self.new) (result ≡ Accepted.Failed) };
}
