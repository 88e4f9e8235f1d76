//! The times of the files of a mount: what each message makes of them, who may set them, and how they are told.
//! Nothing here has a volume.
#![tactic(auto)]

pub mod change;
pub mod leave;
pub mod stamps;
pub mod times;
