//! The log of a segment, read block by block.

ghost use Rattle.std.specs.Prelude.{◌≡◌, ◌↔◌, [], Some, IsTrue, option_and_then};
ghost use Rattle.lfs_segments.specs.Log.{after_block};
ghost use Rattle.lfs_fsck.specs.Names.{first_name};

use lfs_segments::entry::SummaryEntry;
use lfs_segments::log_summary::summary_in;
use lfs_segments::summary::ENTRY_LIMIT;
use lfs_types::block::Block;
use std::marker::Model;

/// What the log of a segment expects next: the blocks of these entries, and then a summary; none behind its end.
#[derive(Drop)]
pub(crate) struct Reader {
    entries: [SummaryEntry; ENTRY_LIMIT],
    next: usize,
    count: usize,
    is_ended: bool,
}

impl Model for Reader {
    ghost use Rattle.std.specs.Prelude.{◌≡◌, ◌≤◌, List, Option, None, Some, drop, take, length, if◌then◌else◌};
    ghost use Rattle.lfs_segments.specs.declared.entry.SummaryEntry.{SummaryEntry};

    ghost Value = { Option (List SummaryEntry) };

    ghost view = { λ r. if r.is_ended then None else Some (drop r.next (take r.count r.entries)) };

    ghost invariant = { λ r. (r.count ≤ 40) × (length r.entries ≡ 40) };
}

impl Reader {
    /// Where the log of a segment begins.
    pub(crate) fn start() -> Reader
        ensures { result ≡ Some [] }
    {
        Reader {
            entries: [SummaryEntry::UNUSED; ENTRY_LIMIT],
            next: 0,
            count: 0,
            is_ended: false,
        }
    }

    /// Whether the log goes on with a summary.
    pub(crate) fn is_ready(&self) -> bool
        ensures { IsTrue result ↔ self.now ≡ Some [] }
    {
        !self.is_ended && self.next >= self.count
    }

    /// The entry that the log, whose summaries have serials or have none, has for its next block: none
    /// for a summary, and behind its end.
    pub(crate) fn pass(&mut self, block: &Block, has_serials: bool) -> Option<SummaryEntry>
        ensures named { result ≡ first_name self.old }
        ensures next { self.new
            ≡ option_and_then (λ entries. after_block has_serials entries block.now) self.old }
    {
        if self.is_ended {
            return None;
        }
        if self.next < self.count {
            let entry = self.entries[self.next];
            self.next += 1;
            return Some(entry);
        }
        match summary_in(block, has_serials) {
            Some(summary) => {
                let entries = summary.entries;
                self.entries = entries;
                self.next = 0;
                self.count = summary.count as usize;
            }
            None => self.is_ended = true,
        }
        None
    }
}
