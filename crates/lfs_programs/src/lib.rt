//! What the programs do, over the arguments of an environment and any reader and writers: `lfsd` and `lfs_shell`.
#![tactic(auto)]

pub mod fault;
mod filed;
mod filming;
mod journal;
mod on_disk;
pub mod options;
mod script;
pub mod server;
pub mod shell;
mod telling;
mod volume;
