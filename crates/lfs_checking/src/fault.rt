//! Why bytes are the image of no volume, and why a check ends without a verdict.

ghost use Rattle.std.specs.Prelude.{◌≡◌};
ghost use Rattle.lfs_checking.specs.declared.fault.CheckFault.TheVariants.{Memory as NoMemory, Write};
ghost use Rattle.lfs_checking.specs.declared.fault.VolumeFault.TheVariants.{Memory};

use lfs_image::ImageFault;
use lfs_io::output::WriteFault;
use lfs_trees::fault::TreeFault;
use std::alloc::AllocError;
use thiserror::Error;

/// Why bytes are the image of no volume.
#[derive(Clone, Copy, PartialEq, Eq, Debug, Error)]
pub enum VolumeFault {
    /// They are the image of no store.
    #[error("{fault}")]
    Image {
        /// What is wrong with them.
        fault: ImageFault,
    },
    /// The names of the store whose image they are show no tree.
    #[error("{fault}")]
    Tree {
        /// What is wrong with them.
        fault: TreeFault,
    },
    /// A growth was refused.
    #[error("no memory")]
    Memory,
}

impl From<AllocError> for VolumeFault {
    ghost from_gives = { λ _ fault. fault ≡ Memory };

    fn from(_error: AllocError) -> VolumeFault {
        VolumeFault::Memory
    }
}

/// Why a check ends without a verdict.
#[derive(Clone, Copy, PartialEq, Eq, Debug, Error)]
pub enum CheckFault {
    /// The file of the image could not be opened.
    #[error("image not opened")]
    Open,
    /// The reader failed.
    #[error("read failed")]
    Read,
    /// The image has more than 33,612,300 bytes, as none has.
    #[error("image too long")]
    TooLong,
    /// A growth was refused.
    #[error("no memory")]
    Memory,
    /// The verdict was not written.
    #[error("write failed")]
    Write,
}

impl From<AllocError> for CheckFault {
    ghost from_gives = { λ _ fault. fault ≡ NoMemory };

    fn from(_error: AllocError) -> CheckFault {
        CheckFault::Memory
    }
}

impl From<WriteFault> for CheckFault {
    ghost from_gives = { λ _ fault. fault ≡ Write };

    fn from(_fault: WriteFault) -> CheckFault {
        CheckFault::Write
    }
}

/// Why a volume is not loaded from a file, or not kept in one.
#[derive(Clone, Copy, PartialEq, Eq, Debug, Error)]
pub enum KeepFault {
    /// The file can't be read.
    #[error("{0}")]
    Read(CheckFault),
    /// What the file has is the image of no volume.
    #[error("image: {0}")]
    Image(VolumeFault),
    /// The image is not saved.
    #[error("image not saved")]
    Save,
    /// There are fewer frames than 32, or more than 1,024.
    #[error("frames out of range")]
    Frames,
    /// A growth was refused.
    #[error("no memory")]
    Memory,
}

impl From<CheckFault> for KeepFault {
    fn from(fault: CheckFault) -> KeepFault {
        KeepFault::Read(fault)
    }
}

impl From<VolumeFault> for KeepFault {
    fn from(fault: VolumeFault) -> KeepFault {
        KeepFault::Image(fault)
    }
}

impl From<AllocError> for KeepFault {
    fn from(_error: AllocError) -> KeepFault {
        KeepFault::Memory
    }
}
