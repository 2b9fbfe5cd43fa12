//! What a call of a built-in function answers: its value, the error that it raises, or that memory is wanting.
#![tactic(auto)]

ghost use Rattle.std.specs.Prelude.{◌≡◌};

use std::alloc::AllocError;

/// The most bytes of a text, 16 MiB.
pub const LONGEST: usize = 16_777_216;

/// The error of a call with an argument outside its range: incorrect call.
pub const INCORRECT_CALL: u8 = 40;

/// The error of a value that would be longer than a text may be: resources exhausted.
pub const RESOURCES_EXHAUSTED: u8 = 5;

/// Why a call gives no value.
#[derive(Clone, Copy, Debug, PartialEq, Eq)]
pub enum Refused {
    /// The error of this number is raised.
    Raised(u8),
    /// A growth of memory was refused.
    OutOfMemory,
}

/// The text that a function gives, or why it gives none.
pub type Bytes = Result<Vec<u8>, Refused>;

/// The number that a function gives, or why it gives none.
pub type Number = Result<u64, Refused>;

/// The refusal of an argument outside its range.
pub const OUT_OF_RANGE: Refused = Refused::Raised(INCORRECT_CALL);

/// The refusal of a value that would be too long.
pub const TOO_LONG: Refused = Refused::Raised(RESOURCES_EXHAUSTED);

impl From<AllocError> for Refused {
    ghost use Rattle.rx_answers.specs.declared.Refused.TheVariants as refused;

    ghost from_gives = { λ _ e. e ≡ refused.OutOfMemory };

    fn from(_error: AllocError) -> Refused {
        Refused::OutOfMemory
    }
}
