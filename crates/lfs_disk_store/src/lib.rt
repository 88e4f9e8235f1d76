//! A log store on a disk: its blocks go out to the disk behind each flush, so that a crash of the disk, at any moment,
//! leaves what the store contained at some moment no earlier than the last Sync (this project's profile).
#![tactic(auto)]

mod cleaning;
mod files;
mod laws;
mod layout;
mod showing;
mod store;
#[cfg(test)]
mod tests;
mod writing;

pub use laws::finds_prefix;
pub use layout::{LayoutFault, NotLaidOut};
pub use store::DiskStore;
