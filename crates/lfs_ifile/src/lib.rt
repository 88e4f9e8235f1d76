//! The ifile: how each segment of the volume is used, and where the record of each inode number
//! stands (the 1993 paper on the log-structured file system for UNIX). Ranges and bytes are this
//! project's profile.
#![tactic(auto)]

mod fault;
mod inode;
mod loading;
mod reading;
mod segment;
pub mod sizes;
mod tables;
mod writing;

pub use fault::IfileFault;
pub use inode::{InodePlace, InodeRow, raised_version};
pub use reading::usage_in;
pub use segment::{SEGMENT_BYTES, SegState, SegUse};
pub use tables::Ifile;
