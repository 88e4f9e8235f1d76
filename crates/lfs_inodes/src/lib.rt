//! Inode records: what a file or a directory has beside its blocks, and where these lie.
#![tactic(auto)]

pub mod addresses;
pub mod attributes;
mod bytes;
mod fields;
pub mod inode;
pub mod record;
pub mod size;
pub mod sizes;
pub mod slots;
