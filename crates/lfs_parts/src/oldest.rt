//! The records that have waited longest, as they are packed into one block.

ghost use Rattle.std.specs.Prelude.{◌≡◌, ◌-◌, ◌<◌, ◌≤◌, drop, length};
ghost use Rattle.lfs_log.specs.declared.packing.TheConstants.{SLOT_COUNT};

use lfs_inodes::inode::Inode;
use lfs_log::packing::SLOT_COUNT;
use std::collections::VecDeque;
use std::marker::Model;

/// At most `SLOT_COUNT` inode records, which lie in the value itself. Contracts see a list.
#[derive(Drop)]
pub struct Oldest {
    // The records, and behind them copies of one that nobody reads.
    records: [Inode; SLOT_COUNT],
    count: usize,
}

impl Model for Oldest {
    ghost use Rattle.std.specs.Prelude.{◌≡◌, ◌≤◌, List, length, take};
    ghost use Rattle.lfs_inodes.specs.declared.inode.Inode.{Inode};
    ghost use Rattle.lfs_log.specs.declared.packing.TheConstants.{SLOT_COUNT};

    ghost Value = { List Inode };

    ghost view = { λ o. take o.count o.records };

    ghost invariant = { λ o. (o.count ≤ SLOT_COUNT) × (length o.records ≡ SLOT_COUNT) };
}

impl Oldest {
    /// The records, in their order.
    pub fn as_slice(&self) -> &[Inode]
        ensures value { result.now ≡ self.now }
        ensures fits { length result.now ≤ SLOT_COUNT }
    {
        &self.records[..self.count]
    }
}

/// The last records of a queue, at most `SLOT_COUNT`, in their order.
pub(crate) fn oldest_of(waiting: &VecDeque<Inode>) -> Oldest
    requires { 0 < length waiting.now.items }
    ensures { result ≡ drop (length waiting.now.items - SLOT_COUNT) waiting.now.items }
{
    let count = waiting.len().min(SLOT_COUNT);
    let first = waiting.len() - count;
    let mut records = [waiting[first]; SLOT_COUNT];
    for place in 0..count {
        records[place] = waiting[first + place];
    }
    Oldest { records, count }
}
