//! A terminal: answers in colours, and a prompt before each line.
#![tactic(auto)]

pub mod painted;
pub mod prompted;
#[cfg(test)]
mod tests;
