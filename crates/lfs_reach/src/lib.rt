//! Which inode numbers names lead to, from the root on, by the records that a memory of blocks has (this project's
//! profile).
#![tactic(auto)]

mod blocks;
mod reaching;

pub use blocks::{bytes_at, record_of};
pub use reaching::reached;
