//! The parts of a log store, and what they say of its files: each file's record, the addresses of its
//! blocks and their bytes, read through what waits to be written.
#![tactic(auto)]

pub mod files;
mod format;
pub mod keys;
pub mod oldest;
pub mod parts;
pub mod reading;
pub mod records;
pub mod sizes;
