//! The kinds of store that programs run over: a log store, one with a share, one that a crash leaves whole, and that on a
//! disk. Each stands on a log store.
#![tactic(auto)]

mod over_log;
mod unfit;

pub use over_log::{OnLog, OverLog};
pub use unfit::Unfit;
