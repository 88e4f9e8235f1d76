//! Trials of whole runs: scripts from bytes to bytes at the greatest sizes and on threads, talks, the programs' arguments,
//! what a run tells of its faults, and films. It has tests alone.
#![tactic(auto)]

#[cfg(test)]
mod tests;
