//! Trials of what stands beneath a volume, and of texts: rules, blocks of directories, segments and their summaries,
//! the ifile, records of inodes, the log and what is wrong with one, what blocks alone tell, frames and the block cache,
//! the three stores alone, images, stores that show a tree or none, a mount's nodes, and values, scripts and answers as
//! text. It has tests alone.
#![tactic(auto)]

#[cfg(test)]
mod tests;
