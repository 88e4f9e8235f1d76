//! Why a script is refused.

use lfs_words::fault::FaultKind;
use thiserror::Error;

/// The first fault of a script.
#[derive(Clone, Copy, PartialEq, Eq, Debug, Error)]
#[error("line {line}: {kind}")]
pub struct ScriptFault {
    /// The line, counted from 1.
    pub line: u32,
    /// What is wrong with it.
    pub kind: FaultKind,
}
