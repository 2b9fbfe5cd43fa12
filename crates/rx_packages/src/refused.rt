// Why a source is no program.
use rx_tree::OutOfMemory;
use thiserror::Error;

/// Why a source is no program.
#[derive(Clone, Copy, Debug, PartialEq, Eq, Error)]
pub enum SourceRefused {
    /// It has more than 4,194,304 bytes.
    #[error("the source is too long")]
    Long,
    /// More than 250 brackets are open at once.
    #[error("brackets stand too deep in one another")]
    Deep,
    /// It breaks a rule of the language: the line, from 1, and the error's number.
    #[error("line {line} error {number}")]
    Bad { line: u32, number: u8 },
    /// A growth of memory was refused.
    #[error("out of memory")]
    OutOfMemory,
}

impl From<OutOfMemory> for SourceRefused {
    ghost use Rattle.std.specs.Prelude.{◌≡◌};
    ghost use Rattle.rx_packages.specs.declared.refused.SourceRefused.TheVariants as refused;

    ghost from_gives = { λ _ refusal. refusal ≡ refused.OutOfMemory };

    fn from(_error: OutOfMemory) -> SourceRefused {
        SourceRefused::OutOfMemory
    }
}
