//! The words of a command line: read, their numbers judged, and what is told of words that ask for no run. And what a
//! program works with.
#![tactic(auto)]

pub mod flags;
pub mod means;
pub mod numbers;
pub mod operands;
pub mod refusing;
pub mod streams;
pub mod texts;
pub mod words;
