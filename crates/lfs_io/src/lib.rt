//! What a run reads and writes, over any reader and writer: the bytes of a script, a text in large pieces, and the line of
//! a fault.
#![tactic(auto)]

pub mod output;
pub mod pieces;
pub mod read;
pub mod tell;
