//! A mount: a message of the kernel as calls on a volume, made as the caller of its header and of
//! no other, and their answers as one reply.
#![tactic(auto)]

mod answering;
mod calling;
mod changing;
mod flagging;
mod grouping;
mod handling;
mod keeping;
pub mod laws;
mod leaving;
mod making;
pub mod mount;
mod naming;
mod node_tree;
mod room;
mod sight;
mod sweeping;
mod tending;
