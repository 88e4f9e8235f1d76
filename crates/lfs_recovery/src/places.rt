//! What stands where in the blocks.

/// A whole partial segment.
#[derive(Clone, Copy, PartialEq, Eq, Debug)]
pub struct PartialSegment {
    /// Its serial, at least 1.
    pub serial: u32,
    /// The address of its summary; its blocks stand behind it.
    pub address: u32,
    /// The number of its blocks, the summary not counted.
    pub count: u32,
}

/// A record of an inode in a whole partial segment.
#[derive(Clone, Copy, PartialEq, Eq, Debug)]
pub struct RecordPlace {
    /// The serial of the partial segment.
    pub serial: u32,
    /// The number of the inode.
    pub number: u32,
    /// Its version.
    pub version: u32,
    /// The address of the inode block.
    pub address: u32,
    /// The slot in it, 0 to 3.
    pub slot: u32,
}
