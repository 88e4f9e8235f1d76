//! The cleaner: when a pass of it is wanted, which segment it takes, and what it calls.
#![tactic(auto)]

mod choosing;
pub mod pass;
pub mod wanting;
