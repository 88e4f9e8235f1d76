//! What waits over the log of a store is written into it: room is made for it, its blocks and records
//! land, and changes are made all together or none of them.
#![tactic(auto)]

pub mod applying;
pub mod collecting;
mod counting;
mod finishing;
pub mod flushing;
pub mod gaining;
mod giving;
pub mod landing;
pub mod laws;
pub mod marking;
pub mod records;
pub mod room;
pub mod sizes;
pub mod writing;
