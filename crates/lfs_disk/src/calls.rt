//! What a disk was told.

use lfs_types::block::Block;

/// A call of a disk that was made.
#[derive(Clone, Copy)]
pub enum Call {
    /// A block was written.
    Written {
        /// Its address.
        address: u32,
        /// The block.
        block: Block,
    },
    /// What was written was synced.
    Synced,
}
