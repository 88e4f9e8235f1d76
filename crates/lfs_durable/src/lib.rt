//! What recovery finds of a store is what the store had (this project's profile).
#![tactic(auto)]

pub mod laws;
