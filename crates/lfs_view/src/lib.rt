//! A look at the log of a store: what stands at each address, whose it is, and whether it is of use.
#![tactic(auto)]

pub mod cells;
pub mod life;
mod map;
pub mod owners;
mod padding;
pub mod records;
pub mod rows;
mod segment;
pub mod shows;
pub mod space;
pub mod walk;
