//! What directories have and a file holds, for people: calls of one caller, each entered as any, and their answers as
//! text.
#![tactic(auto)]

pub mod asking;
pub mod content;
pub mod entry;
pub mod listing;
pub mod look;
pub mod rows;
pub mod spelling;
pub mod visit;
pub mod walk;
