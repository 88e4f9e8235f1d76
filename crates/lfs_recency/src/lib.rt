//! The frames of a block cache, in four queues that are linked by raw pointers.
#![tactic(auto)]

mod frame;
mod frames;
mod links;
mod queue;

pub use frames::Frames;
pub use queue::Queue;
