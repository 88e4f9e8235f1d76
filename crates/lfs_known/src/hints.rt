//! A hint of a directory, and the hints that are kept.

use crate::slots::Slots;

/// Where a directory has no room: in none of its blocks before one does a name of this length fit, and so none that is
/// longer.
#[derive(Clone, Copy)]
pub struct Hint {
    /// How many blocks have no room: the index of the one behind them, which the directory need not have.
    pub block: u64,
    /// The length of a name, in bytes.
    pub length: usize,
}

/// Hints of directories, by inode number.
pub type DirHints = Slots<Hint>;
