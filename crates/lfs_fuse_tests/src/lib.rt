//! Trials of the FUSE protocol: messages and replies as bytes that are written out by hand from fuse.h. It has tests
//! alone.
#![tactic(auto)]

#[cfg(test)]
mod tests;
