//! Whether a log store can be found again in its blocks, decided (this project's profile).
#![tactic(auto)]

mod finding;
mod listing;
mod ordering;
mod places;
mod standing;

pub use finding::can_be_found;
