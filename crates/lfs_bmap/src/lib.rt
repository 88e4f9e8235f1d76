//! The pure core of the log store: which blocks a file has and how its addresses lead to them, what
//! the log keeps of each place, and how blocks make up a file. The other log crates stand on its
//! definitions and lemmas.
#![tactic(auto)]

pub mod blocks;
pub mod pieces;
pub mod sizes;
pub mod tables;
