//! The store of a talk on a disk's file: made anew, or found again in it (this project's profile).
#![tactic(auto)]

mod fault;
mod finding;
mod laws;
mod starting;
#[cfg(test)]
mod tests;
mod writing;

pub use fault::StartFault;
pub use finding::find;
pub use laws::finds_the_same;
pub use starting::{Started, start};
