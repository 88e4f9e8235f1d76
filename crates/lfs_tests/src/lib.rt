//! Trials of volumes, of sessions on threads and of the cleaner's passes: runs of steps and of calls, full volumes, and what
//! they keep. It has tests alone.
#![tactic(auto)]

#[cfg(test)]
mod tests;
