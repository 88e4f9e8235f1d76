//! Why a disk does not do what it is told.

use thiserror::Error;

/// Why a call of a disk, or a run of its calls, ends early.
#[derive(Clone, Copy, PartialEq, Eq, Debug, Error)]
pub enum DiskFault {
    /// A block could not be read.
    #[error("read failed")]
    Read,
    /// A block could not be written.
    #[error("write failed")]
    Write,
    /// It could not be made sure that what was written stays.
    #[error("sync failed")]
    Sync,
    /// A growth was refused.
    #[error("no memory")]
    Memory,
}
