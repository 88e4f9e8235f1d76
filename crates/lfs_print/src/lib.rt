//! Answers as text: from answers and a journal to the lines that are printed.
#![tactic(auto)]

pub mod cleaner;
pub mod print;
pub mod report;
