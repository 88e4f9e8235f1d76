//! A law of what a crash leaves. The function does nothing, and its contract is the law.

ghost use Rattle.lfs_disk_store.specs.Runs.{FindsPrefix};

use lfs_disk::BlockDisk;

/// After a crash in a run of calls what is found is what the store contained behind some of them: at least those up to the
/// last Sync of a disk that hadn't failed.
pub fn finds_prefix<D: BlockDisk>()
    ensures { FindsPrefix D.time D.left_since }
{}
