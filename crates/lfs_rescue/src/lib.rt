//! A volume found again from its blocks alone, whose summaries have serials (this project's profile).
#![tactic(auto)]

mod blocks;
mod building;
mod counting;
mod fault;
mod ifile;
mod label;
pub mod laws;
mod naming;
mod options;
pub mod program;
mod recovering;
mod rows;
mod telling;
mod wiping;

pub use blocks::recover_blocks;
pub use fault::{RecoverFault, RescueFault};
pub use options::{Options, options_of};
pub use recovering::recover;
