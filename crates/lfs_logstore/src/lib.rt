//! The log store: a file store over a log of segments, which a cleaner cleans (4.4BSD's log-structured file system).
//! Each file is read off the parts of the log and what waits to be written over it, which always has room.
#![tactic(auto)]

mod cleaning;
mod files;
mod gaining;
mod looking;
mod store;

pub use gaining::GainFault;
pub use lfs_types::cleaner::{BlockInfo, CleanFault, InfoList, MarkList};
pub use store::LogStore;
