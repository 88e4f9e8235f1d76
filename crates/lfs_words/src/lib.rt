//! The words of scripts and answers: which number, level, mode, flags, bytes, path, credential or info a word spells,
//! or why it spells none, and how numbers, bytes and names are spelled.
#![tactic(auto)]

pub mod append;
pub mod caller;
pub mod fault;
pub mod hex;
pub mod info;
pub mod line;
pub mod number;
pub mod path;
pub mod spelling;
pub mod words;
