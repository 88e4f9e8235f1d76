//! The limits of a volume, each said once (this project's profile).

/// The number of blocks of a segment.
pub const SEGMENT_BLOCKS: u32 = 64;

/// The least number of segments of a volume.
pub const LEAST_SEGMENTS: u32 = 6;

/// The greatest number of segments of a volume.
pub const MOST_SEGMENTS: u32 = 1_024;

/// The least number of inode numbers of a volume.
pub const LEAST_INODES: u32 = 16;

/// The greatest number of inode numbers of a volume.
pub const MOST_INODES: u32 = 4_096;

/// The least number of frames of a block cache.
pub const LEAST_FRAMES: u32 = 32;

/// The greatest number of frames of a block cache.
pub const MOST_FRAMES: u32 = 1_024;

/// The inode number of the root directory.
pub const ROOT_INODE: u32 = 2;

/// The least inode number that a new file or directory may get.
pub const FIRST_INODE: u32 = 4;

/// The greatest number of blocks of a file or a directory.
pub const FILE_BLOCKS: u32 = 16_524;

/// The greatest number of bytes of a file or a directory.
pub const FILE_BYTES: u64 = 8_460_288;

/// The greatest number of bytes that one Read serves and one Write brings.
pub const TRANSFER_BYTES: usize = 4_096;
