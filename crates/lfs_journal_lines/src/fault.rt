//! Why a line tells no entry.

ghost use Rattle.std.specs.Prelude.{◌≡◌};

use lfs_words::fault::FaultKind;
use thiserror::Error;

/// A part of a line that tells an entry.
#[derive(Clone, Copy, PartialEq, Eq, Debug, Error)]
pub enum Field {
    /// The line: its bytes, its words, and the two bars between its fields.
    #[error("line")]
    Line,
    /// The session and the credential.
    #[error("caller")]
    Caller,
    /// What was asked.
    #[error("call")]
    Call,
    /// What was answered.
    #[error("answer")]
    Answer,
}

impl Field {
    /// A fault of this field.
    pub(crate) fn fault(self, kind: FaultKind) -> LineFault
        ensures { result ≡ record { field = self; kind = kind } }
    {
        LineFault { field: self, kind }
    }
}

/// The first fault of a line: the fields are read in the order of `Field`.
#[derive(Clone, Copy, PartialEq, Eq, Debug, Error)]
#[error("{field}: {kind}")]
pub struct LineFault {
    /// Where it is.
    pub field: Field,
    /// What is wrong there.
    pub kind: FaultKind,
}
