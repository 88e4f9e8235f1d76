//! The files and directories of a mount that are open: who opened each file, and what is kept of one
//! that is removed meanwhile; the names of each directory, as they were when it was opened.
#![tactic(auto)]

pub mod head;
pub mod kept;
pub mod listing;
pub mod loans;
pub mod opens;
pub mod rewriting;
