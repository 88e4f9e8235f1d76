//! What is wrong with a log.

ghost use Rattle.std.specs.Prelude.{◌≡◌};
ghost use Rattle.lfs_fsck.specs.declared.fault.LogFault.TheVariants.{Memory};

use std::alloc::AllocError;
use thiserror::Error;

/// Why no store may stand on a log, and where. Of a key it has the number of the file and the code of the block: 0 the
/// record, 1 the single indirect block, 2 the double one, 3 + k its child k, 131 + n data block n.
#[derive(Clone, Copy, PartialEq, Eq, Debug, Error)]
pub enum LogFault {
    /// The active segment doesn't end with a whole partial segment.
    #[error("the log of the active segment {segment} ends within a partial segment")]
    Unfinished {
        /// The active segment.
        segment: u32,
    },
    /// A block of the active segment behind the log's end isn't zeros.
    #[error("block {address} lies behind the log's end, and is not zeros")]
    NotZeros {
        /// The address of the block.
        address: u32,
    },
    /// A number below 4 is in use, and isn't the root's.
    #[error("number {number} is in use, and only a root's may be below 4")]
    Reserved {
        /// The number.
        number: u32,
    },
    /// At the place of a number in use stands no record.
    #[error("number {number} is in use, and no record stands at its place")]
    NoRecord {
        /// The number.
        number: u32,
    },
    /// At the place of a number in use stands a record of another number, or of another version.
    #[error("at the place of number {number} stands a record of another number or version")]
    OtherRecord {
        /// The number.
        number: u32,
    },
    /// An address lies past the volume's blocks.
    #[error("block {code} of number {number} has an address past the volume's blocks")]
    Outside {
        /// The number of the file.
        number: u32,
        /// The code of the block.
        code: u32,
    },
    /// The log names another block at an address, or none.
    #[error("the log names another block, or none, at the address of block {code} of number {number}")]
    Misnamed {
        /// The number of the file.
        number: u32,
        /// The code of the block.
        code: u32,
    },
    /// An address lies in a clean segment.
    #[error("block {code} of number {number} lies in a clean segment")]
    InClean {
        /// The number of the file.
        number: u32,
        /// The code of the block.
        code: u32,
    },
    /// An address lies behind the end of the active segment's log.
    #[error("block {code} of number {number} lies behind the log's end")]
    Unwritten {
        /// The number of the file.
        number: u32,
        /// The code of the block.
        code: u32,
    },
    /// A block past the file's size has an address.
    #[error("block {code} of number {number} has an address, and lies past the size")]
    PastSize {
        /// The number of the file.
        number: u32,
        /// The code of the block.
        code: u32,
    },
    /// The last block of a file has a byte past the size that isn't zero.
    #[error("number {number} has bytes past its size that are not zero")]
    Tail {
        /// The number of the file.
        number: u32,
    },
    /// The live bytes of a segment aren't those of the blocks and records that lie there.
    #[error("segment {segment} has another count of live bytes than those that lie there")]
    Live {
        /// The segment.
        segment: u32,
    },
    /// The active segment has more live bytes than were written.
    #[error("the active segment {segment} has more live bytes than were written there")]
    Crowded {
        /// The segment.
        segment: u32,
    },
    /// A growth was refused.
    #[error("no memory")]
    Memory,
}

impl From<AllocError> for LogFault {
    ghost from_gives = { λ _ fault. fault ≡ Memory };

    fn from(_error: AllocError) -> LogFault {
        LogFault::Memory
    }
}
