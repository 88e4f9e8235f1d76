//! What a program works with.

use std::alloc::Global;

/// What a program works with.
#[derive(Drop)]
pub struct Means<'a, F, O> {
    /// The files.
    pub files: &'a F,
    /// The memory.
    pub alloc: Global,
    /// What was asked for.
    pub options: O,
}
