//! The journal of a volume is a legal run to the tree that its store and its level show.
#![tactic(auto)]

mod cleaning;
pub mod volume;

pub use lfs_flatfiles::flat_files;
pub use lfs_model::{counts, journal, steps};
pub use lfs_types::cleaner::CleanerCall;
