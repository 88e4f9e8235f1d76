//! Each user's call over any file store answers as the rules say, and changes the store as the call changes the tree.
#![tactic(auto)]

mod arriving;
pub mod attributes;
pub mod cached_store;
pub mod call_fault;
mod cleaning;
pub mod cutting;
pub mod directory;
pub mod listing;
pub mod making;
pub mod reading;
pub mod removing;
pub mod renaming;
pub mod serving;
pub mod walking;
pub mod writing;
