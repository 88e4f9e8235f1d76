//! A law of what a crash leaves while a found volume's blocks are written back. The function does nothing, and its
//! contract is the law.

ghost use Rattle.lfs_disk_start.specs.Finding.{FindsTheSame};

/// What is found in blocks of which some were written back contains what the store contains that was found before.
pub fn finds_the_same()
    ensures { FindsTheSame }
{}
