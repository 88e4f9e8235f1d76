//! A film of a log: a page of HTML that shows, line by line of a talk, what stands in each segment.
#![tactic(auto)]

pub mod blocks;
mod changed;
pub mod checks;
pub mod film;
mod frame;
mod owners;
pub mod page;
pub mod quoting;
pub mod script;
pub mod sizes;
pub mod states;
pub mod style;
pub mod tree;
pub mod words;
