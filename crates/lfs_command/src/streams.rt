//! The streams of a program.

/// What a program reads, and where it writes.
#[derive(Drop)]
pub struct Streams<R, W, D> {
    /// Standard input, or what stands for it.
    pub stdin: R,
    /// Standard output, or what stands for it.
    pub stdout: W,
    /// Standard error, or what stands for it.
    pub stderr: D,
}
