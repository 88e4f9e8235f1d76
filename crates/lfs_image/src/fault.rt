//! What is wrong with an image.

ghost use Rattle.std.specs.Prelude.{◌≡◌};
ghost use Rattle.lfs_image.specs.declared.fault.ImageFault.TheVariants.{Memory};

use lfs_fsck::LogFault;
use std::alloc::AllocError;
use thiserror::Error;

/// Why bytes are the image of no store.
#[derive(Clone, Copy, PartialEq, Eq, Debug, Error)]
pub enum ImageFault {
    /// They end before the head does, or before what it tells of.
    #[error("the image ends too early")]
    Short,
    /// They go on behind what the head tells of.
    #[error("the image goes on behind its end")]
    Long,
    /// They don't begin with `LFSI`.
    #[error("the image does not begin with LFSI")]
    Mark,
    /// They are of another form than 1.
    #[error("the image is of another form than 1")]
    Form,
    /// The head tells of fewer than 6 segments, or of more than 1,024.
    #[error("the head tells of {number} segments")]
    Segments {
        /// How many it tells of.
        number: u32,
    },
    /// The head tells of fewer than 16 inode numbers, or of more than 4,096.
    #[error("the head tells of {number} inode numbers")]
    Inodes {
        /// How many it tells of.
        number: u32,
    },
    /// The active segment isn't one of the volume's.
    #[error("the head tells of an active segment {segment} that there is not")]
    Active {
        /// The segment.
        segment: u32,
    },
    /// More blocks of the active segment are used than it has, or the label isn't.
    #[error("the head tells of {blocks} used blocks of the active segment")]
    Used {
        /// How many are.
        blocks: u32,
    },
    /// There is no such securelevel.
    #[error("the head tells of a securelevel {number}, counted from 0, that there is not")]
    Securelevel {
        /// Its number, 0 being 4.4BSD's -1.
        number: u32,
    },
    /// The head's bytes behind its numbers aren't zeros.
    #[error("the head has bytes behind its numbers that are not zero")]
    Gap,
    /// What follows the blocks doesn't begin as an ifile, or has another length than that says.
    #[error("what follows the blocks is no ifile")]
    IfileHead,
    /// A segment has more live bytes than bytes in the ifile, or a state that there isn't.
    #[error("the ifile says of segment {segment} what no segment may be")]
    IfileSegment {
        /// The segment.
        segment: u32,
    },
    /// The row of an inode number is none that may stand in the ifile.
    #[error("the ifile says of number {number} what no number may be")]
    IfileRow {
        /// The inode number.
        number: u32,
    },
    /// The ifile has other numbers of segments or of inode numbers than the head, or another active segment.
    #[error("the ifile and the head do not agree")]
    Apart,
    /// The block at address 0 isn't the label of such a volume.
    #[error("block 0 is not the label of such a volume")]
    Label,
    /// No store may stand on the log.
    #[error("{fault}")]
    Log {
        /// What is wrong with it.
        fault: LogFault,
    },
    /// A growth was refused.
    #[error("no memory")]
    Memory,
}

impl From<AllocError> for ImageFault {
    ghost from_gives = { λ _ fault. fault ≡ Memory };

    fn from(_error: AllocError) -> ImageFault {
        ImageFault::Memory
    }
}
