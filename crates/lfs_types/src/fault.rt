//! Why a volume cannot be made.

ghost use Rattle.std.specs.Prelude.{◌≡◌};
ghost use Rattle.lfs_types.specs.declared.fault.FormatFault.TheVariants.{Memory};

use std::alloc::AllocError;
use thiserror::Error;

/// A refusal of the calls that lay out a volume or a part of one (this project's profile).
#[derive(Clone, Copy, PartialEq, Eq, Debug, Error)]
pub enum FormatFault {
    /// A number is below its range.
    #[error("TooFew")]
    TooFew,
    /// A number is above its range.
    #[error("TooMany")]
    TooMany,
    /// A growth was refused.
    #[error("Memory")]
    Memory,
}

impl From<AllocError> for FormatFault {
    ghost from_gives = { λ _ fault. fault ≡ Memory };

    fn from(_error: AllocError) -> FormatFault {
        FormatFault::Memory
    }
}
