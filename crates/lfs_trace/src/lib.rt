//! Whether the entries of a trace are a legal run: each is judged by what the rules decide of its call.
#![tactic(auto)]

mod alike;
pub mod answers;
pub mod checker;
pub mod cleaning;
mod copying;
pub mod errors;
pub mod fault;
pub mod trace;
