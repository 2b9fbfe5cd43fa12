// Why no expression is read.
use rx_tree::OutOfMemory;
use std::alloc::AllocError;

/// The error of a message whose name is missing.
pub const NO_NAME: u8 = 19;

/// The error of a `:` behind a message's name with no symbol behind it.
pub const NO_SYMBOL: u8 = 20;

/// The error of a missing operand.
pub const NO_OPERAND: u8 = 35;

/// The error of a bracket that isn't closed.
pub const UNCLOSED: u8 = 36;

/// The error of a comma or a closing bracket that isn't expected.
pub const UNEXPECTED: u8 = 37;

/// Why no expression begins at a place of some tokens.
#[derive(Clone, Copy, Debug, PartialEq, Eq, thiserror::Error)]
pub enum ParseRefused {
    /// No expression fits the tokens there. The number is that of the error: 19 where a message's name is missing, 20 where
    /// the symbol behind `:` is, 35 where an operand is, 36 for a bracket that isn't closed, and 37 for a comma or a closing
    /// bracket that isn't expected. `at` is the place of the token that is refused, from 0, or the number of the tokens
    /// where they end too early.
    #[error("error {number} at token {at}")]
    Bad { at: u32, number: u8 },
    /// A growth of memory was refused.
    #[error("out of memory")]
    OutOfMemory,
}

/// A refusal of some tokens: how many are left from the one on that is refused, and the number of the error.
#[derive(Clone, Copy, Debug, PartialEq, Eq)]
pub struct Fault {
    pub left: usize,
    pub number: u8,
}

/// Why a part of an expression isn't read.
#[derive(Clone, Copy, Debug, PartialEq, Eq)]
pub enum Refused {
    Bad(Fault),
    OutOfMemory,
}

impl Refused {
    ghost use Rattle.std.specs.Prelude.{◌≡◌, ◌<◌, ◌^◌};
    ghost use Rattle.rx_exprs.specs.Parsed.{placed};

    /// The refusal, by the place of its token among so many.
    pub fn among(self, count: usize) -> ParseRefused
        requires { count < 2 ^ 32 }
        ensures { result ≡ placed count self }
    {
        match self {
            Refused::Bad(fault) => ParseRefused::Bad {
                at: count.saturating_sub(fault.left) as u32,
                number: fault.number,
            },
            Refused::OutOfMemory => ParseRefused::OutOfMemory,
        }
    }
}

impl From<AllocError> for Refused {
    ghost use Rattle.std.specs.Prelude.{◌≡◌};
    ghost use Rattle.rx_exprs.specs.declared.refused.Refused.TheVariants as refused;

    ghost from_gives = { λ _ e. e ≡ refused.OutOfMemory };

    fn from(_error: AllocError) -> Refused {
        Refused::OutOfMemory
    }
}

impl From<OutOfMemory> for Refused {
    ghost use Rattle.std.specs.Prelude.{◌≡◌};
    ghost use Rattle.rx_exprs.specs.declared.refused.Refused.TheVariants as refused;

    ghost from_gives = { λ _ e. e ≡ refused.OutOfMemory };

    fn from(_error: OutOfMemory) -> Refused {
        Refused::OutOfMemory
    }
}
