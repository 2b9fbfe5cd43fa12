// Why a message is refused.
use rx_heap::HeapRefused;
use rx_native::NativeRefused;
use rx_tree::OutOfMemory;

/// The error of a string that would be too long, of an object that would be too many, or of an activity.
pub(crate) const RESOURCES_EXHAUSTED: u8 = 5;

/// The error of a frame that would be too many.
pub(crate) const CONTROL_STACK_FULL: u8 = 11;

/// The error of a wrong call of a method.
pub(crate) const INCORRECT_METHOD_CALL: u8 = 93;

/// The error of a message without a method.
pub(crate) const METHOD_NOT_FOUND: u8 = 97;

/// The error of an instruction where it may not be done.
pub(crate) const EXECUTION_ERROR: u8 = 98;

/// Why a message is refused.
#[derive(Clone, Copy, Debug, PartialEq, Eq)]
pub enum SendRefused {
    /// The error of this number is raised.
    Raised(u8),
    /// The receiver has no method of the name and no UNKNOWN, and the sender traps NOMETHOD.
    NoMethod,
    OutOfMemory,
}

impl From<OutOfMemory> for SendRefused {
    ghost use Rattle.std.specs.Prelude.{◌≡◌};
    ghost use Rattle.rx_sends.specs.declared.refused.SendRefused.TheVariants as refused;

    ghost from_gives = { λ _ e. e ≡ refused.OutOfMemory };

    fn from(_error: OutOfMemory) -> SendRefused {
        SendRefused::OutOfMemory
    }
}

impl From<NativeRefused> for SendRefused {
    ghost use Rattle.std.specs.Prelude.{◌≡◌};
    ghost use Rattle.rx_sends.specs.Refusals.{of_native};

    ghost from_gives = { λ error e. e ≡ of_native error };

    fn from(error: NativeRefused) -> SendRefused {
        match error {
            NativeRefused::Raised(number) => SendRefused::Raised(number),
            NativeRefused::OutOfMemory => SendRefused::OutOfMemory,
        }
    }
}

impl From<HeapRefused> for SendRefused {
    ghost use Rattle.std.specs.Prelude.{◌≡◌};
    ghost use Rattle.rx_sends.specs.Refusals.{of_heap};

    ghost from_gives = { λ error e. e ≡ of_heap error };

    fn from(error: HeapRefused) -> SendRefused {
        match error {
            HeapRefused::Full => SendRefused::Raised(RESOURCES_EXHAUSTED),
            HeapRefused::OutOfMemory => SendRefused::OutOfMemory,
        }
    }
}
