//! Whether what a store contains shows a tree.
#![tactic(auto)]

pub mod checking;
pub mod fault;
mod files;
mod names;
mod reading;
mod walk;
