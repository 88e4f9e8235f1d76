//! The messages that a kernel sends to a file server in the FUSE protocol, as values. Whatever bytes come, they are one
//! message or none. Nothing here knows a volume.
//!
//! Source of every number and place: the FUSE protocol's fuse.h, on a machine whose lowest byte stands first.
#![tactic(auto)]

pub mod attributes;
pub mod flags;
pub mod forgetting;
pub mod framing;
pub mod handles;
pub mod header;
pub mod init;
pub mod ioctl;
pub mod kind;
pub mod message;
mod names;
pub mod naming;
mod numbers;
pub mod opcode;
