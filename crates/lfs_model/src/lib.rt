//! What a server may answer, and what a call does to the tree: definitions without a store, and the journal's entries.
#![tactic(auto)]

pub mod asking;
pub mod counts;
pub mod journal;
pub mod steps;
