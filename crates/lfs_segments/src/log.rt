//! The log of the active segment, written block by block: a summary first, and then the blocks that
//! it names (this project's profile; after the 1993 paper on the log-structured file system for UNIX).

ghost use Rattle.std.specs.Prelude.{◌≡◌, ◌+◌, ◌<◌, ◌≤◌, ℕ, List, All, [], ◌∷◌, Some, None, length};
ghost use Rattle.std.specs.List.{slice_get};
ghost use Rattle.lfs_segments.specs.declared.entry.SummaryEntry.{SummaryEntry};
ghost use Rattle.lfs_segments.specs.declared.summary.TheConstants.{ENTRY_LIMIT};
ghost use Rattle.lfs_segments.specs.Entry.{IsEntry};
ghost use Rattle.lfs_segments.specs.Log.{Expects, Extends, entry_at};
ghost use Rattle.lfs_segments.specs.Memory.{IsLaidOut, appended, block_at, next_address, next_serial, raised, room_of};
ghost use Rattle.lfs_segments.specs.Rising.{IsRising};
ghost use Rattle.lfs_segments.specs.Serial.{IsSummaryWith};

use crate::entry::SummaryEntry;
use crate::log_summary::summary_block;
use crate::segments::Segments;
use crate::summary::Summary;
use lfs_types::block::Block;
use lfs_types::limits::SEGMENT_BLOCKS;
use std::slice;

impl Segments {
    /// Begins a partial segment of 1 to 40 blocks: writes the summary of their entries behind the
    /// active segment's log, and gives its address. The blocks are to be put next, in order. Where
    /// summaries have serials, it gets the next one; the last one stays.
    pub fn begin(&mut self, entries: &[SummaryEntry]) -> u32
        requires ready { Expects self.old [] }
        requires some { 0 < length entries.now }
        requires at_most { length entries.now ≤ ENTRY_LIMIT }
        requires fit { length entries.now < room_of self.old }
        requires named { All IsEntry entries.now }
        ensures address { result ≡ next_address self.old }
        ensures written { self.new ≡ raised (appended self.old (block_at self.new result ∷ [])) }
        ensures summary { IsSummaryWith self.old.serial (block_at self.new result)
            self.old.active self.old.fill entries.now }
        ensures serial { self.new.serial ≡ next_serial self.old.serial }
        ensures expects { Expects self.new entries.now }
        // The log names the blocks to come.
        ensures names { (k : ℕ) → k < length entries.now
            → entry_at self.new (result + 1 + k) ≡ slice_get entries.now k }
        ensures unnamed { entry_at self.new result ≡ None }
        ensures next { next_address self.new ≡ next_address self.old + 1 }
        ensures extends { Extends self.old self.new }
        // Its serial is above all others.
        ensures rising { IsRising self.old → IsRising self.new }
        ensures was_laid_out { IsLaidOut self.old }
        ensures laid_out { IsLaidOut self.new }
    {
        let summary = Summary::new(self.active(), SEGMENT_BLOCKS - self.room(), entries);
        let block = summary_block(self.serial(), &summary);
        let address = self.append(&[block]);
        self.raise();
        address
    }

    /// Writes the next block of the partial segment, and gives its address.
    pub fn put(&mut self, block: &Block) -> u32
        requires { 1 ≤ room_of self.old }
        ensures address { result ≡ next_address self.old }
        ensures written { self.new ≡ appended self.old (block.now ∷ []) }
        ensures block { block_at self.new result ≡ block.now }
        ensures serial { self.new.serial ≡ self.old.serial }
        ensures expects { (entry : SummaryEntry) (entries : List SummaryEntry)
            → Expects self.old (entry ∷ entries) → Expects self.new entries }
        ensures names { (entry : SummaryEntry) (entries : List SummaryEntry)
            → Expects self.old (entry ∷ entries) → entry_at self.new result ≡ Some entry }
        ensures next { next_address self.new ≡ next_address self.old + 1 }
        ensures extends { Extends self.old self.new }
        // It is no summary.
        ensures rising { (entry : SummaryEntry) (entries : List SummaryEntry)
            → Expects self.old (entry ∷ entries) → IsRising self.old → IsRising self.new }
        ensures was_laid_out { IsLaidOut self.old }
        ensures laid_out { IsLaidOut self.new }
    {
        self.append(slice::from_ref(block))
    }
}
