//! What waits over the parts of a log store: changes of its files, each with what leads to it. The segments stay as
//! they are.
#![tactic(auto)]

pub mod addressing;
pub mod changing;
pub mod cutting;
pub mod making;
pub mod sizes;
pub mod staging;
