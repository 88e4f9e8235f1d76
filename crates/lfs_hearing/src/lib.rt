//! What a line says that is talked to: what a line of a script says, a word of the server's own, or why nothing.
#![tactic(auto)]

pub mod fault;
pub mod hearing;
pub mod look;
