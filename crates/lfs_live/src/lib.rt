//! A server that answers each line before it reads the next.
#![tactic(auto)]

pub mod framing;
pub mod help;
pub mod journal;
pub mod line;
pub mod same;
pub mod start;
pub mod talk;
pub mod telling;
pub mod tended;
pub mod upkeep;
pub mod watch;
pub mod witnesses;
