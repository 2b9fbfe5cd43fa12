// A text in upper case.
ghost use Rattle.std.specs.Prelude.{◌≡◌, IfOk};
ghost use Rattle.std.specs.Str.{str_to_ascii_uppercase};

use std::alloc::{AllocError, Global};

/// A growth of memory was refused.
#[derive(Clone, Copy, Debug, PartialEq, Eq)]
pub struct OutOfMemory;

impl From<AllocError> for OutOfMemory {
    fn from(_error: AllocError) -> OutOfMemory {
        OutOfMemory
    }
}

/// The text with its ASCII letters in upper case, or want of memory. Other bytes stay.
pub fn upper(alloc: Global, text: &[u8]) -> Result<Vec<u8>, OutOfMemory>
    ensures upper { IfOk result (λ upper. upper.items ≡ str_to_ascii_uppercase text.now) }
{
    let mut upper = Vec::from_slice(alloc, text)?;
    upper.make_ascii_uppercase();
    Ok(upper)
}
