//! Why a call is allowed or denied: the checks of the rules that it would be asked now, in order, without making it.
#![tactic(auto)]

pub mod check;
pub mod class;
pub mod explain;
mod looking;
mod moving;
mod privileged;
mod telling;
mod testing;
pub mod trail;
