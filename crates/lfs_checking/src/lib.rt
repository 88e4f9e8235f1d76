//! A check of an image, over any reader and writer: whether it is that of a volume whose names show a tree, and what is
//! wrong where it isn't; and how an image is written, and a volume loaded from one.
#![tactic(auto)]

pub mod fault;
pub mod fresh;
pub mod keeping;
pub mod reading;
pub mod saving;
pub mod standing;
pub mod verdict;
pub mod volume;
