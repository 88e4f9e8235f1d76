//! An audit of a journal, line by line: whether it is legal, where it isn't, and what it tells of who did what.
#![tactic(auto)]

pub mod audit;
mod beginning;
pub mod fault;
mod json;
pub mod last;
pub mod lines;
pub mod options;
pub mod placing;
pub mod program;
mod telling;
pub mod users;
