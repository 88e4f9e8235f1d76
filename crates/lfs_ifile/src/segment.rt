//! How a segment is used.

ghost use Rattle.std.specs.Prelude.{◌≡◌, ◌<◌, IfNone, IfSome};
ghost use Rattle.lfs_ifile.specs.Segment.{state_number};

use lfs_types::block::BLOCK_SIZE;
use lfs_types::limits::SEGMENT_BLOCKS;

/// The number of bytes of a segment, which its live bytes never pass.
pub const SEGMENT_BYTES: u32 = SEGMENT_BLOCKS * BLOCK_SIZE as u32;

/// What the log does with a segment (the 1993 paper on the log-structured file system for UNIX).
#[derive(Clone, Copy, PartialEq, Eq, Debug)]
pub enum SegState {
    /// Nothing is in it.
    Clean = 0,
    /// It was written, and is the cleaner's to empty.
    Dirty = 1,
    /// It is the one that is written.
    Active = 2,
}

impl SegState {
    /// The number that stands for this state in the ifile's bytes.
    pub(crate) fn number(self) -> u32
        ensures { result ≡ state_number self }
    {
        self as u32
    }

    /// The state that a number stands for.
    pub(crate) fn from_number(number: u32) -> Option<SegState>
        ensures some { IfSome result (λ state. state_number state ≡ number) }
        ensures none { IfNone result (2 < number) }
    {
        match number {
            0 => Some(SegState::Clean),
            1 => Some(SegState::Dirty),
            2 => Some(SegState::Active),
            _ => None,
        }
    }
}

/// How a segment is used.
#[derive(Clone, Copy, PartialEq, Eq, Debug)]
pub struct SegUse {
    /// The bytes in it that are in use; in an `Ifile` 0 to 32,768.
    pub live: u32,
    /// Its state.
    pub state: SegState,
}
