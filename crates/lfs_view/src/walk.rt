//! The log of a segment, walked block by block.

ghost use Rattle.std.specs.Prelude.{◌≡◌, [], Some, option_and_then};
ghost use Rattle.lfs_segments.specs.Log.{after_block};
ghost use Rattle.lfs_view.specs.Cells.{standing_at};

use lfs_segments::entry::SummaryEntry;
use lfs_segments::log_summary::summary_in;
use lfs_segments::summary::ENTRY_LIMIT;
use lfs_types::block::Block;
use std::marker::Model;

/// What stands at an address behind the label.
#[derive(Clone, Copy, PartialEq, Eq, Debug)]
pub enum Standing {
    /// The summary of so many blocks that follow it.
    Summary(u32),
    /// A block that this entry of a summary names.
    Named(SummaryEntry),
    /// Nothing: the log ends before it.
    Unwritten,
}

/// What the log of a segment expects next: the blocks of these entries, and then a summary; none behind its end.
#[derive(Drop)]
pub struct Walk {
    entries: [SummaryEntry; ENTRY_LIMIT],
    next: usize,
    count: usize,
    is_ended: bool,
}

impl Model for Walk {
    ghost use Rattle.std.specs.Prelude.{◌≡◌, ◌≤◌, List, Option, None, Some, drop, take, length, if◌then◌else◌};
    ghost use Rattle.lfs_segments.specs.declared.entry.SummaryEntry.{SummaryEntry};

    ghost Value = { Option (List SummaryEntry) };

    ghost view = { λ w. if w.is_ended then None else Some (drop w.next (take w.count w.entries)) };

    ghost invariant = { λ w. (w.count ≤ 40) × (length w.entries ≡ 40) };
}

impl Walk {
    /// Where the log of a segment begins.
    pub fn start() -> Walk
        ensures { result ≡ Some [] }
    {
        Walk {
            entries: [SummaryEntry::UNUSED; ENTRY_LIMIT],
            next: 0,
            count: 0,
            is_ended: false,
        }
    }

    /// What the next block is, of a log whose summaries have serials, or have none.
    pub fn pass(&mut self, block: &Block, has_serials: bool) -> Standing
        ensures stands { result ≡ standing_at has_serials self.old block.now }
        ensures next { self.new ≡ option_and_then
            (λ entries. after_block has_serials entries block.now) self.old }
    {
        if self.is_ended {
            return Standing::Unwritten;
        }
        if self.next < self.count {
            let entry = self.entries[self.next];
            self.next += 1;
            return Standing::Named(entry);
        }
        match summary_in(block, has_serials) {
            Some(summary) => {
                let entries = summary.entries;
                self.entries = entries;
                self.next = 0;
                self.count = summary.count as usize;
                Standing::Summary(summary.count)
            }
            None => {
                self.is_ended = true;
                Standing::Unwritten
            }
        }
    }
}
