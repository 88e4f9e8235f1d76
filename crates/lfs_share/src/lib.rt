//! A log store that always comes back: where its files take no more than a share of the volume, cleaning makes room
//! again.
#![tactic(auto)]

mod cleaning;
mod files;
mod growing;
mod restoring;
mod showing;
mod store;
mod taking;
mod telling;

pub use restoring::{ENOUGH, ShareFault, restore};
pub use store::SharedStore;
pub use taking::LOW_UNITS;
pub use telling::{Outcome, apply_or_gain};
