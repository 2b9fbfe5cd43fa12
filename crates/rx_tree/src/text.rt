// Bytes that several owners share.
ghost use Rattle.std.specs.Prelude.{◌≡◌, ◌≤◌, ℕ, List, length, IfOk};

use std::alloc::{AllocError, AllocFailed, Global};
use std::marker::Model;
use std::sync::Arc;

/// A growth of memory was refused.
#[derive(Clone, Copy, Debug, PartialEq, Eq)]
pub struct OutOfMemory;

impl From<AllocError> for OutOfMemory {
    fn from(_error: AllocError) -> OutOfMemory {
        OutOfMemory
    }
}

impl<T: Drop> From<AllocFailed<T>> for OutOfMemory {
    fn from(_error: AllocFailed<T>) -> OutOfMemory {
        OutOfMemory
    }
}

/// A string of the language: at most 16,777,216 bytes of any kind, which several owners share.
///
/// Contracts see a text as the list of its bytes.
pub struct Text {
    shared: Arc<Vec<u8>>,
}

impl Drop for Text {
    fn drop(self) {
        let Text { shared: _ } = self;
    }
}

impl Model for Text {
    ghost use Rattle.std.specs.Prelude.{List, ℕ, ◌≤◌, length};
    ghost use Rattle.std.specs.Arc.{arc_value};
    ghost use Rattle.rx_tree.specs.Bytes.{longest};

    ghost Value = { List ℕ };

    ghost view = { λ t. (arc_value t.shared).items };

    ghost invariant = { λ t. length (arc_value t.shared).items ≤ longest };
}

impl Text {
    /// The most bytes that a text has.
    pub const LONGEST: usize = 16_777_216;

    /// A text with a copy of these bytes, or want of memory.
    pub fn from_slice(alloc: Global, bytes: &[u8]) -> Result<Text, OutOfMemory>
        requires fits { length bytes.now ≤ Self.LONGEST }
        ensures bytes { IfOk result (λ text. text ≡ bytes.now) }
    {
        let copy = Vec::from_slice(alloc, bytes)?;
        let shared = Arc::new(alloc, copy)?;
        Ok(Text { shared })
    }

    /// A further owner of the same bytes, or want of memory.
    pub fn share(&self) -> Result<Text, OutOfMemory>
        ensures same { IfOk result (λ text. text ≡ self.now) }
    {
        let shared = Arc::try_clone(&self.shared)?;
        Ok(Text { shared })
    }

    /// The bytes.
    pub fn bytes(&self) -> &[u8]
        ensures bytes { result.now ≡ self.now }
        ensures short { length result.now ≤ Self.LONGEST }
    {
        self.shared.as_slice()
    }
}
