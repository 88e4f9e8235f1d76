//! A file that is open, and what is kept of it once it is removed.

use lfs_fuse_reply::attr::Attr;
use lfs_fuse_wire::flags::AccessMode;
use lfs_types::cred::Cred;

/// What is kept of a file that was removed while it was open.
#[derive(Drop)]
pub struct Kept {
    /// Its attributes, as they are told.
    pub attr: Attr,
    /// All its bytes.
    pub bytes: Vec<u8>,
}

/// Why nothing is kept of a file that was removed while it was open.
#[derive(Clone, Copy, PartialEq, Eq, Debug)]
pub enum KeepingFault {
    /// The rules didn't let who opened it read it then.
    Denied,
    /// It had more bytes than there was room for.
    Room,
    /// The volume showed no file of its inode number.
    Absent,
    /// Memory was wanting, or its path is too long for any call.
    Memory,
}

/// A file that is open.
#[derive(Drop)]
pub struct OpenFile {
    /// Its node.
    pub(crate) node: u64,
    /// Who opened it.
    pub(crate) cred: Cred,
    /// What he may do with it.
    pub(crate) access: AccessMode,
    /// What is kept of it, once it was removed.
    pub(crate) kept: Option<Kept>,
    /// Why nothing is kept of it, once it was removed.
    pub(crate) lack: Option<KeepingFault>,
}
