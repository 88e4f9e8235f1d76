//! A disk beneath the segments of a log store: what a crash leaves of it, at any moment, is what recovery can use (this
//! project's profile).
#![tactic(auto)]

mod calls;
mod disk;
mod fault;
mod laws;
mod memory;
mod mirror;
mod reading;
#[cfg(test)]
mod tests;
mod writing;

pub use calls::Call;
pub use disk::{BlockDisk, ReadableDisk};
pub use fault::DiskFault;
pub use laws::{
    finds_old_or_new, flush_follows_on, flushing_ahead_follows_on, marking_follows_on,
    opened_follows_on, opens_clean_only, writing_follows_on,
};
pub use memory::MemoryDisk;
pub use mirror::Mirror;
pub use reading::read_all;
pub use writing::lay_out;
