//! Where the record of an inode number stands.

ghost use Rattle.std.specs.Prelude.{◌≡◌};
ghost use Rattle.lfs_ifile.specs.Inode.{place_in, raised_version};

/// Where the record of a used inode number stands.
#[derive(Clone, Copy, PartialEq, Eq, Debug)]
pub struct InodePlace {
    /// The address of its inode block; 0 where the record isn't in the log yet.
    pub addr: u32,
    /// The slot in that block, 0 to 3.
    pub slot: u16,
    /// How often the number was given out, from 1; 1 follows 4,294,967,295.
    pub version: u32,
}

/// What the inode map keeps of an inode number. Contracts see the map as a list of these.
#[derive(Clone, Copy, PartialEq, Eq, Debug)]
pub struct InodeRow {
    /// Whether the number is used.
    pub used: bool,
    /// The address of its inode block; 0 where it is unused or its record isn't in the log yet.
    pub address: u32,
    /// The slot in that block, 0 to 3; 0 where it is unused.
    pub slot: u16,
    /// How often the number was given out; 0 where it never was.
    pub version: u32,
}

impl InodeRow {
    /// Where the record stands, if the number is used.
    pub(crate) fn place(&self) -> Option<InodePlace>
        ensures { result ≡ place_in self.now }
    {
        if !self.used {
            return None;
        }
        Some(InodePlace {
            addr: self.address,
            slot: self.slot,
            version: self.version,
        })
    }
}

/// The version after this one.
pub fn raised_version(version: u32) -> u32
    ensures { result ≡ raised_version version }
{
    if version == u32::MAX { 1 } else { version + 1 }
}
