//! Who could make a call: over all callers, told apart only where the rules' answer differs.
#![tactic(auto)]

pub mod act;
mod asking;
pub mod condition;
pub mod line;
mod lines;
mod moving;
mod posing;
mod privileged;
pub mod telling;
pub mod who;
