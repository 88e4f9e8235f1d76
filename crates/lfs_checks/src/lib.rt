//! What the rules of each call say of attributes, a caller and numbers alone: Ok, or the first rule that fails, in the
//! order of the call's table. No store is read.
#![tactic(auto)]

pub mod asking;
pub mod attributes;
pub mod bytes;
pub mod components;
pub mod level;
pub mod names;
pub mod site;
