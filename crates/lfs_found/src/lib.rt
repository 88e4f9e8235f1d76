//! What recovery finds of a log whose summaries have serials, in the words of whoever writes it (this project's profile).
#![tactic(auto)]

pub mod laws;
