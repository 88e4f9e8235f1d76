//! The files that the parts hold.

ghost use Rattle.std.specs.Prelude.{◌≡◌, ◌+◌, ◌-◌, ◌/◌, ◌<◌, length};
ghost use Rattle.lfs_types.specs.declared.block.TheConstants.{BLOCK_SIZE};
ghost use Rattle.lfs_types.specs.Stored.{IsLeastFree, Reads, bytes_of, shown_attrs, slice_of};
ghost use Rattle.lfs_parts.specs.Files.{content_of};
ghost use Rattle.lfs_parts.specs.Filling.{IsCached, SameButClean};
ghost use Rattle.lfs_parts.specs.Store.{IsStore};
ghost use Rattle.lfs_parts.specs.View.{version_of};

use crate::parts::Parts;
use lfs_types::attrs::Attrs;

impl Parts {
    /// The attributes of a number, if it is in use.
    pub fn attrs(&self, ino: u32) -> Option<Attrs>
        requires { IsStore self.now }
        ensures { result ≡ shown_attrs (content_of self.now) ino }
    {
        if ino >= self.log.inodes() {
            return None;
        }
        Some(self.record(ino)?.attrs())
    }

    /// Reads a file's bytes from `off` on, as many as there are and the buffer takes, and says how
    /// many. They are read through the cache.
    pub fn read(&mut self, ino: u32, off: u64, into: &mut [u8]) -> usize
        requires { IsStore self.old }
        ensures reads { Reads (slice_of (bytes_of (content_of self.old) ino) off (length into.old))
            result into.old into.new }
        // Frames may be taken for clean blocks; what waits, and the log, stay.
        ensures kept { SameButClean self.old self.new }
        // The last block that was read has a clean frame, or waits, or is a hole.
        ensures cached { 0 < result → IsCached ino (version_of self.old ino)
            ((off + result - 1) / BLOCK_SIZE) self.new }
    {
        if ino >= self.log.inodes() {
            return 0;
        }
        let Some(inode) = self.record(ino) else {
            return 0;
        };
        if off >= inode.size {
            return 0;
        }
        let count = into.len().min((inode.size - off) as usize);
        self.read_blocks(&inode, off, &mut into[..count]);
        count
    }

    /// The least free number from 4 up, if there is one below the number of inode numbers.
    pub fn least_free(&self) -> Option<u32>
        requires { IsStore self.now }
        ensures { IsLeastFree (length self.now.log.tables.rows) (content_of self.now) result }
    {
        self.log.least_free()
    }
}
