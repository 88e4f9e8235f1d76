//! The lines of a journal: what tells an entry, and the entry that a line tells.
#![tactic(auto)]

mod answers;
mod asked;
mod escapes;
pub mod fault;
pub mod law;
pub mod numbering;
mod outcomes;
pub mod reading;
pub mod telling;
