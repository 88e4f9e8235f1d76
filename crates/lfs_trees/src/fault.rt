//! What is wrong with what a store contains.

ghost use Rattle.std.specs.Prelude.{◌≡◌};
ghost use Rattle.lfs_trees.specs.declared.fault.TreeFault.TheVariants.{Memory};

use std::alloc::AllocError;
use thiserror::Error;

/// Why what a store contains shows no tree, and with which number.
#[derive(Clone, Copy, PartialEq, Eq, Debug, Error)]
pub enum TreeFault {
    /// The root isn't in use, or is no directory.
    #[error("the root is no directory")]
    Root,
    /// A number below 4 is in use, and isn't the root's.
    #[error("number {number} is in use, and only a root's may be below 4")]
    Reserved {
        /// The number.
        number: u32,
    },
    /// A file has more bytes than a file may have, or a directory has a part of a block.
    #[error("number {number} has a length that its kind may not have")]
    Length {
        /// Its number.
        number: u32,
    },
    /// A block of a directory doesn't spell entries.
    #[error("block {index} of directory {directory} is no directory block")]
    Block {
        /// The number of the directory.
        directory: u32,
        /// Which of its blocks, from 0.
        index: u64,
    },
    /// A directory lists a name twice.
    #[error("directory {directory} lists the name of number {number} twice")]
    NameTwice {
        /// The number of the directory.
        directory: u32,
        /// The number that the name has where it stands again.
        number: u32,
    },
    /// A directory lists the root.
    #[error("directory {directory} lists the root")]
    RootListed {
        /// The number of the directory.
        directory: u32,
    },
    /// A directory lists a number that isn't in use.
    #[error("directory {directory} lists number {number}, which is not in use")]
    Unused {
        /// The number of the directory.
        directory: u32,
        /// The number that isn't in use.
        number: u32,
    },
    /// A number is listed at two places.
    #[error("number {number} is listed twice")]
    NumberTwice {
        /// The number.
        number: u32,
    },
    /// A number is in use, and no names lead to it: no directory lists it, or only one that no names lead to, as on a
    /// cycle.
    #[error("number {number} is in use, and no names lead to it")]
    Unreached {
        /// The number.
        number: u32,
    },
    /// A growth was refused.
    #[error("no memory")]
    Memory,
}

impl From<AllocError> for TreeFault {
    ghost from_gives = { λ _ fault. fault ≡ Memory };

    fn from(_error: AllocError) -> TreeFault {
        TreeFault::Memory
    }
}
