//! A volume as bytes: its blocks, its ifile and its securelevel, behind a block that tells how many there are (this
//! project's profile).
#![tactic(auto)]

mod fault;
mod head;
mod loading;
mod saving;

pub use fault::ImageFault;
pub use loading::{is_labelled, load, read_blocks};
pub use saving::save;
