//! The block cache: blocks by key, in frames of which the dirty ones are locked.
#![tactic(auto)]

mod cache;
mod index;
mod key;
mod names;
pub mod sizes;

pub use cache::{Cache, LOCKED_LIMIT};
pub use key::{BlockCode, Key};
