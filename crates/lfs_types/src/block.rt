//! The unit of storage.

/// The number of bytes of a block (this project's profile).
pub const BLOCK_SIZE: usize = 512;

/// One block of the volume: 512 bytes.
pub type Block = [u8; BLOCK_SIZE];

/// A block without data: all its bytes are zero.
pub const ZERO_BLOCK: Block = [0; BLOCK_SIZE];
