//! A plain file store: whole files in memory, one place for each inode number.
#![tactic(auto)]

pub mod flat_files;
