//! Scripts as text: from the bytes of a script to its plan, or its first fault.
#![tactic(auto)]

mod askers;
mod chunks;
mod cleaner_calls;
pub mod cleaner_spelling;
pub mod fault;
mod forms;
mod lines;
mod operands;
pub mod parser;
pub mod place;
pub mod plan;
mod requests;
pub mod script;
pub mod spelling;
pub mod split;
mod verb;
