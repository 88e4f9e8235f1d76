//! Every size of the profile as a number.

ghost use Rattle.std.specs.Prelude.{◌≡◌};
ghost use Rattle.lfs_types.specs.declared.block.TheConstants.{BLOCK_SIZE};
ghost use Rattle.lfs_types.specs.declared.cleaner.TheConstants.{INFO_LIMIT, INODE_BLOCK, MARK_LIMIT, SINGLE_BLOCK};
ghost use Rattle.lfs_types.specs.declared.cred.TheConstants.{NGROUPS_MAX};
ghost use Rattle.lfs_types.specs.declared.limits.TheConstants.{FILE_BLOCKS, FILE_BYTES, FIRST_INODE, LEAST_FRAMES, LEAST_INODES, LEAST_SEGMENTS, MOST_FRAMES, MOST_INODES, MOST_SEGMENTS, ROOT_INODE, SEGMENT_BLOCKS, TRANSFER_BYTES};
ghost use Rattle.lfs_types.specs.declared.name.TheConstants.{NAME_MAX};
ghost use Rattle.lfs_types.specs.declared.path.TheConstants.{PATH_MAX};

/// The constants that contracts cite by name are these numbers: a law, which does nothing.
pub fn sizes()
    ensures name { NAME_MAX ≡ 255 }
    ensures path { PATH_MAX ≡ 1024 }
    ensures groups { NGROUPS_MAX ≡ 16 }
    ensures transfer { TRANSFER_BYTES ≡ 4096 }
    ensures block { BLOCK_SIZE ≡ 512 }
    ensures segment { SEGMENT_BLOCKS ≡ 64 }
    ensures least_segments { LEAST_SEGMENTS ≡ 6 }
    ensures most_segments { MOST_SEGMENTS ≡ 1024 }
    ensures least_inodes { LEAST_INODES ≡ 16 }
    ensures most_inodes { MOST_INODES ≡ 4096 }
    ensures least_frames { LEAST_FRAMES ≡ 32 }
    ensures most_frames { MOST_FRAMES ≡ 1024 }
    ensures root { ROOT_INODE ≡ 2 }
    ensures first_inode { FIRST_INODE ≡ 4 }
    ensures blocks { FILE_BLOCKS ≡ 16524 }
    ensures bytes { FILE_BYTES ≡ 8460288 }
    ensures infos { INFO_LIMIT ≡ 248 }
    ensures marks { MARK_LIMIT ≡ 8 }
    ensures inode_block { INODE_BLOCK ≡ 4294967295 }
    ensures single_block { SINGLE_BLOCK ≡ 2147483648 }
{}
