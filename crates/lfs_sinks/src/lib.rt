//! Where the entries of a journal go that are handed out of it, and what a run counts beside its journal.
#![tactic(auto)]

pub mod refusals;
pub mod sink;
pub mod spare;
pub mod totals;
