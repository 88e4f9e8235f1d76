//! A message of a kernel as the calls that it asks for, and answers as what the kernel is told. Nothing here has a volume.
#![tactic(auto)]

pub mod asked;
pub mod attr;
pub mod caller;
pub mod errors;
pub mod paths;
mod pieces;
pub mod shown;
pub mod telling;
pub mod told;
