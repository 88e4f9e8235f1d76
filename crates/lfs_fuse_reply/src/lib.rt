//! Replies to the messages of `lfs_fuse_wire`, as values, and the bytes that the kernel reads. No reply lets the kernel
//! keep a name or attributes for any time. Nothing here knows a volume.
//!
//! Source of every number and place: the FUSE protocol's fuse.h, on a machine whose lowest byte stands first.
#![tactic(auto)]

pub mod attr;
pub mod errno;
pub mod listing;
pub mod reply;
mod writing;
