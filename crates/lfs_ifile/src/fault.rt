//! Why bytes are no ifile's.

ghost use Rattle.std.specs.Prelude.{◌≡◌};
ghost use Rattle.lfs_ifile.specs.declared.fault.IfileFault.TheVariants.{Memory};

use std::alloc::AllocError;

/// What is wrong with bytes that are no ifile's.
#[derive(Clone, Copy, PartialEq, Eq, Debug)]
pub enum IfileFault {
    /// They don't begin with `LFIF`, the numbers of segments and of inode numbers are not in their ranges, or the length
    /// isn't theirs.
    Head,
    /// A segment has more live bytes than bytes, or a state that there isn't.
    Segment {
        /// The segment.
        segment: u32,
    },
    /// The row of an inode number has an address past the volume, a slot above 3, a mark of its use other than 0 and 1, an
    /// address or a slot though it is unused, or version 0 though it is used.
    Row {
        /// The inode number.
        number: u32,
    },
    /// A growth was refused.
    Memory,
}

impl From<AllocError> for IfileFault {
    ghost from_gives = { λ _ fault. fault ≡ Memory };

    fn from(_error: AllocError) -> IfileFault {
        IfileFault::Memory
    }
}
