//! Directory blocks: lists of numbers and names in 512 bytes (this project's profile).
//!
//! An entry is a number above 0 in four bytes, the highest first, the length of a name in one byte, and
//! the name. The list ends where fewer than five bytes are left or the number is 0, and the rest of the
//! block is zeros. No entry spans two blocks, and no name stands twice in a block.
#![tactic(auto)]

mod reading;
mod writing;

pub use reading::{BlockEntries, entries, find, is_directory_block};
pub use writing::{add, added, remove, removed, replaced};
