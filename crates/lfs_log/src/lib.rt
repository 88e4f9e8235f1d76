//! The log: segments and the ifile, which together say what is written where. A partial segment is
//! begun and put block by block, a clean segment is opened, live bytes move with a block, and a
//! scan finds again what a segment names. Nothing here knows whose a place is (this project's
//! profile; after the 1993 paper on the log-structured file system for UNIX).
#![tactic(auto)]

mod infos;
mod live;
mod log;
pub mod packing;
pub mod sizes;
mod writing;

pub use log::Log;
