//! Trials of a live server: its sessions, its threads and the cleaner's doorbell. It has tests alone.
#![tactic(auto)]

#[cfg(test)]
mod tests;
