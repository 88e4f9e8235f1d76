//! A log store of which a crash, at any moment, leaves what it contained at some moment no earlier than the last Sync: a
//! segment is opened only where nothing waits from before.
#![tactic(auto)]

mod cleaning;
mod files;
mod fitting;
mod laws;
mod mark;
mod showing;
mod store;

pub use laws::{behind_is_later, finds_prefix, mark_is_later, survives_later};
pub use mark::Mark;
pub use store::DurableStore;
