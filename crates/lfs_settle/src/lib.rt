//! Settling: whether a journal is an interleaving of what sessions asked and were answered.
#![tactic(auto)]

pub mod entries;
mod judging;
mod stepping;
pub mod transcripts;
