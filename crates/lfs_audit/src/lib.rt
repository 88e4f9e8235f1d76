//! Scripts run: from the bytes of a script to the bytes printed, its answers and the report.
#![tactic(auto)]

pub mod asker;
pub mod fault;
pub mod filing;
pub mod passing;
pub mod run;
pub mod threads;
pub mod undone;
mod window;

pub use lfs_print::{print, report};
pub use lfs_script::fault::ScriptFault;
pub use lfs_script::{plan, script, split};
