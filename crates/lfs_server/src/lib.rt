//! The server: sessions on threads and a cleaner beside them over one volume, handed out once the journal is settled.
#![tactic(auto)]

mod batch;
mod cleaner;
mod doorbell;
pub mod fresh;
pub mod gate;
mod kept;
pub mod live;
mod live_server;
pub mod live_session;
mod run;
mod running;
pub mod serve;
pub mod serving;
mod session;
pub mod settle;
mod telling;
pub mod unserved;

pub use lfs_cleaner::pass;
pub use lfs_types::script;
