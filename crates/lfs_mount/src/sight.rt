//! Where a file is to be looked at, before it is removed.

use lfs_fuse_reply::attr::Attr;
use lfs_opens::kept::KeepingFault;
use lfs_types::path::Path;

/// Where the file of a node is to be looked at, and what is told of its attributes.
#[derive(Drop)]
pub struct Sight {
    /// A path that leads to it.
    pub(crate) path: Path,
    /// Its attributes.
    pub(crate) attr: Attr,
}

/// A node that a message is about to take from its place.
#[derive(Drop)]
pub struct Leaving {
    /// The node.
    pub(crate) node: u64,
    /// Where its file is to be looked at, or why it can't be.
    pub(crate) sight: Result<Sight, KeepingFault>,
}
