//! A disk of blocks in a file of the host (this project's profile).
#![tactic(auto)]

mod disk;
mod fault;
mod host;
mod opening;
#[cfg(test)]
mod tests;
mod told;

pub use disk::FileDisk;
pub use fault::FileFault;
