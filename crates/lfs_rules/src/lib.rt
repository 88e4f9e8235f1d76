//! The permission rules of 4.4BSD that this project's profile keeps, each as a test over the attributes of
//! a file and a credential. Nothing here takes memory.
#![tactic(auto)]

pub mod access;
pub mod flags;
pub mod level;
pub mod owner;
