//! The kernel's node ids of a mount: which row each names, and by which names it is reached, through every change.
#![tactic(auto)]

mod fault;
mod finding;
mod index;
mod laws;
mod moving;
mod node;
mod nodes;
mod parts;
mod place;
mod table;
mod way;

pub use fault::{LookUpFault, PathFault};
pub use laws::stay_true;
pub use moving::Renaming;
pub use node::{Hang, Node};
pub use nodes::Nodes;
pub use place::{NodeId, Place};
