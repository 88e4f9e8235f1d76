//! What `lfs_fuse` does, over the arguments of an environment, any reader and writers: messages in, replies out.
#![tactic(auto)]

pub mod fault;
pub mod filing;
mod groups;
mod inbox;
pub mod options;
pub mod outside;
pub mod program;
pub mod served;
mod statuses;
pub mod talk;
mod volume;
