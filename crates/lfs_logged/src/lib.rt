//! A volume of whose journal a crash leaves a known part: how many of its entries would be found again.
#![tactic(auto)]

mod logged;

pub use logged::Logged;
