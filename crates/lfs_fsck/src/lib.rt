//! Whether a store may stand on a log, and otherwise what is wrong with it (this project's profile; after fsck_lfs(8) of
//! the 4.4BSD successors).
#![tactic(auto)]

mod blocks;
mod bytes;
mod checking;
mod counting;
mod ending;
mod fault;
mod names;
mod reader;
mod records;
mod tail;

pub use checking::{check_log, count_live};
pub use fault::LogFault;
