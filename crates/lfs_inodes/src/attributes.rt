//! The attributes of an inode.

ghost use Rattle.std.specs.Prelude.{◌≡◌, ◌≤◌, replicate};
ghost use Rattle.lfs_inodes.specs.Addresses.{addresses};
ghost use Rattle.lfs_inodes.specs.Attributes.{attributes, attributes_from, stat_of};
ghost use Rattle.lfs_inodes.specs.Facts.{IsInodeNumber};

use crate::inode::{DIRECT_COUNT, Inode, ROOT_COUNT};
use lfs_types::attrs::Attrs;

impl Inode {
    /// The inode of a new file or directory: no bytes, no blocks. The size of the attributes counts
    /// for nothing.
    pub fn new(number: u32, version: u32, attrs: &Attrs) -> Inode
        requires number { IsInodeNumber number }
        requires version { 1 ≤ version }
        ensures attributes { attributes result ≡ attributes_from number version attrs.now 0 }
        ensures addresses { addresses result ≡ replicate ROOT_COUNT 0 }
    {
        // The types of these two bound their bits.
        let (_mode, _flags) = (attrs.mode.bits(), attrs.flags.bits());
        Inode {
            kind: attrs.kind,
            number,
            version,
            owner: attrs.uid,
            group: attrs.gid,
            mode: attrs.mode,
            flags: attrs.flags,
            size: 0,
            direct: [0; DIRECT_COUNT],
            single: 0,
            double: 0,
        }
    }

    /// The attributes that stat(2) shows.
    pub fn attrs(&self) -> Attrs
        ensures { result ≡ stat_of (attributes self.now) }
    {
        Attrs {
            kind: self.kind,
            uid: self.owner,
            gid: self.group,
            mode: self.mode,
            flags: self.flags,
            size: self.size,
        }
    }

    /// The inode with these attributes, which are of its kind. Its size stays, whatever theirs is.
    pub fn with_attrs(&self, attrs: &Attrs) -> Inode
        requires { attrs.now.kind ≡ self.now.kind }
        ensures attributes { attributes result
            ≡ attributes_from self.now.number self.now.version attrs.now self.now.size }
        ensures addresses { addresses result ≡ addresses self.now }
    {
        let (_mode, _flags) = (attrs.mode.bits(), attrs.flags.bits());
        let mut changed = *self;
        changed.owner = attrs.uid;
        changed.group = attrs.gid;
        changed.mode = attrs.mode;
        changed.flags = attrs.flags;
        changed
    }
}
