//! Why a word or a line of a script is refused.

ghost use Rattle.std.specs.Prelude.{◌≡◌};
ghost use Rattle.lfs_words.specs.declared.fault.FaultKind.TheVariants.{Memory};

use lfs_types::cred::BadCred;
use lfs_types::path::BadPath;
use std::alloc::{AllocError, AllocFailed};
use thiserror::Error;

/// What is wrong with a line of a script, in the order in which it is asked (this project's profile).
#[derive(Clone, Copy, PartialEq, Eq, Debug, Error)]
pub enum FaultKind {
    /// The line has no line feed.
    #[error("Cut")]
    Cut,
    /// A byte is outside 0x20 to 0x7E.
    #[error("Bytes")]
    Bytes,
    /// The first word is unknown, the number of words is wrong, a word is empty, or a fixed word is another.
    #[error("Words")]
    Words,
    /// There are more block infos than the call takes.
    #[error("Many")]
    Many,
    /// A number has no digits, a wrong digit or too many digits.
    #[error("Number")]
    Number,
    /// A number is out of its range, or bytes are too many.
    #[error("Range")]
    Range,
    /// The path is refused.
    #[error("Path")]
    Path(BadPath),
    /// Bytes have a wrong digit or an odd number of digits.
    #[error("Hex")]
    Hex,
    /// The credential is refused.
    #[error("Cred")]
    Cred(BadCred),
    /// A growth was refused.
    #[error("Memory")]
    Memory,
}

impl From<AllocError> for FaultKind {
    ghost from_gives = { λ _ kind. kind ≡ Memory };

    fn from(_error: AllocError) -> FaultKind {
        FaultKind::Memory
    }
}

impl<T: Drop> From<AllocFailed<T>> for FaultKind {
    ghost from_gives = { λ _ kind. kind ≡ Memory };

    fn from(_error: AllocFailed<T>) -> FaultKind {
        FaultKind::Memory
    }
}
