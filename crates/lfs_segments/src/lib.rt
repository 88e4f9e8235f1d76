//! The memory of the volume in segments, and the summary blocks by which the log tells what its
//! blocks are (this project's profile; after the 1993 paper on the log-structured file system for
//! UNIX).
#![tactic(auto)]

mod blocks;
mod bytes;
pub mod entry;
pub mod log;
pub mod log_summary;
pub mod segments;
pub mod serial;
pub mod sizes;
pub mod summary;
