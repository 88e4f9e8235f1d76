//! An explanation of a call as lines of text: each check that the rules would ask, of what, and what they come to.
#![tactic(auto)]

pub mod lines;
