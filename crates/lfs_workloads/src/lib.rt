//! The benchmark's calls: how large a run is, the calls that make the tree, those of each workload, and those of eight
//! sessions.
#![tactic(auto)]

pub mod calls;
pub mod meeting;
pub mod scale;
pub mod series;
mod step;
mod timed;
pub mod workload;
