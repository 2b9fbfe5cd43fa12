// Why there is no installation order.
use rx_tree::OutOfMemory;

/// Why classes aren't brought into their installation order.
#[derive(Clone, Copy, Debug, PartialEq, Eq, thiserror::Error)]
pub enum InstallRefused {
    /// There is no installation order: once no other class can be installed, some are left that each lack their superclass or
    /// a mixin. The line is that of the directive of the first one, from 1.
    #[error("the class of line {line} can't be installed")]
    NoOrder { line: u32 },
    /// A growth of memory was refused.
    #[error("out of memory")]
    OutOfMemory,
}

impl From<OutOfMemory> for InstallRefused {
    ghost use Rattle.std.specs.Prelude.{◌≡◌};
    ghost use Rattle.rx_install.specs.declared.refused.InstallRefused.TheVariants as refused;

    ghost from_gives = { λ _ refusal. refusal ≡ refused.OutOfMemory };

    fn from(_error: OutOfMemory) -> InstallRefused {
        InstallRefused::OutOfMemory
    }
}
