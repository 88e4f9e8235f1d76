//! Trials of audits: of journals of sessions on threads, of journals that begin at an image, of what is told as JSON,
//! of a journal's lines and a trace's entries. And of verdicts on images, and volumes found in blocks. It has tests
//! alone.
#![tactic(auto)]

#[cfg(test)]
mod tests;
