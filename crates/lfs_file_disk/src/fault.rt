//! Why a file is taken for no disk.

use thiserror::Error;

/// Why a file is taken for no disk.
#[derive(Clone, Copy, PartialEq, Eq, Debug, Error)]
pub enum FileFault {
    /// There is a file of this path, which is left as it is.
    #[error("file of the disk exists")]
    Exists,
    /// No file of this path could be made.
    #[error("file of the disk not made")]
    Unmade,
    /// There is no file of this path, or it could not be opened.
    #[error("file of the disk not opened")]
    Unopened,
    /// It has no whole number of blocks, or more than the greatest volume.
    #[error("file of the disk has no whole blocks, or too many")]
    Length,
    /// It could not be read.
    #[error("read failed")]
    Read,
    /// It could not be filled with blocks.
    #[error("write failed")]
    Write,
    /// It could not be made sure that what it has stays.
    #[error("sync failed")]
    Sync,
    /// A growth was refused.
    #[error("no memory")]
    Memory,
}
