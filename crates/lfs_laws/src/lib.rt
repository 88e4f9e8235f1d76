//! The laws that hold of every call and of every run, in users' words, and proved of the table of rules.
#![tactic(auto)]

pub mod laws;
