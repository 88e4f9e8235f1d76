//! Writing at the log's end: a clean segment is opened, a partial segment is begun, its blocks are
//! put.

ghost use Rattle.std.specs.Prelude.{◌≡◌, ◌≢◌, ◌+◌, ◌*◌, ◌/◌, ◌<◌, ◌≤◌, ℕ, List, All, [], ◌∷◌, Some, None, IfNone, IfSome, MatchOption, length};
ghost use Rattle.std.specs.List.{slice_get};
ghost use Rattle.lfs_ifile.specs.declared.segment.SegState.TheVariants.{Clean};
ghost use Rattle.lfs_segments.specs.declared.entry.SummaryEntry.{SummaryEntry};
ghost use Rattle.lfs_segments.specs.declared.summary.TheConstants.{ENTRY_LIMIT};
ghost use Rattle.lfs_segments.specs.Entry.{IsEntry};
ghost use Rattle.lfs_segments.specs.Log.{Expects, Extends, entry_at};
ghost use Rattle.lfs_segments.specs.Memory.{block_at, next_address, next_serial, opened, room_of};
ghost use Rattle.lfs_segments.specs.Rising.{IsRising};
ghost use Rattle.lfs_segments.specs.Serial.{IsSummaryWith};
ghost use Rattle.lfs_bmap.specs.Log.{Opens, Writes};
ghost use Rattle.lfs_bmap.specs.Owners.{owner_in};
ghost use Rattle.lfs_log.specs.Names.{named_at, record_in};
ghost use Rattle.lfs_log.specs.Parts.{IsParts, log_state, opened_parts, state_of};

use crate::log::Log;
use lfs_ifile::SegState;
use lfs_segments::entry::SummaryEntry;
use lfs_types::block::Block;

impl Log {
    /// Opens the first clean segment: it becomes the active one, that before it dirty, and it is
    /// filled with zeros but for the label. None, and no change, where no segment is clean.
    pub fn open(&mut self) -> Option<u32>
        ensures none { IfNone result (self.old.clean ≡ 0) }
        ensures unchanged { IfNone result (self.new ≡ self.old) }
        ensures inside { IfSome result (λ segment. segment < self.old.memory.segments) }
        ensures was_clean { IfSome result (λ segment. state_of self.old.tables segment ≡ Clean) }
        ensures opened { IfSome result (λ segment. self.new ≡ opened_parts self.old segment) }
        // Its log expects a summary.
        ensures ready { IfSome result (λ _. Expects self.new.memory []) }
        // Which has none.
        ensures rising { IfSome result
            (λ _. IsRising self.old.memory → IsRising self.new.memory) }
        // The other segments' blocks stay.
        ensures blocks { IfSome result (λ segment. (a : ℕ) → a / 64 ≢ segment
            → block_at self.new.memory a ≡ block_at self.old.memory a) }
        ensures step { IfSome result (λ segment. (at : ℕ → ℕ → ℕ)
            → Opens (log_state self.old at) (log_state self.new at) segment) }
        ensures was_kept { IsParts self.old }
        ensures kept { IsParts self.new }
    {
        let segment = self.ifile.first_clean()?;
        self.activate(segment);
        Some(segment)
    }

    /// Makes a clean segment the active one, and that before it dirty.
    fn activate(&mut self, segment: u32)
        requires inside { segment < self.old.memory.segments }
        requires clean { state_of self.old.tables segment ≡ Clean }
        ensures opened { self.new ≡ opened_parts self.old segment }
        ensures ready { Expects self.new.memory [] }
        ensures rising { IsRising self.old.memory → IsRising self.new.memory }
        ensures was_kept { IsParts self.old }
        ensures kept { IsParts self.new }
    {
        let active = self.segments.active();
        self.ifile.set_state(active, SegState::Dirty);
        self.ifile.set_state(segment, SegState::Active);
        self.segments.open_next(segment);
        self.clean -= 1;
    }

    /// Begins a partial segment of 1 to 40 blocks: writes the summary of their entries behind the
    /// active segment's log, and gives its address. The blocks are to be put next, in order. Where
    /// summaries have serials, it gets the next one; the last one stays.
    pub fn begin(&mut self, entries: &[SummaryEntry]) -> u32
        requires ready { Expects self.old.memory [] }
        requires some { 0 < length entries.now }
        requires at_most { length entries.now ≤ ENTRY_LIMIT }
        requires fit { length entries.now < room_of self.old.memory }
        requires named { All IsEntry entries.now }
        ensures address { result ≡ next_address self.old.memory }
        ensures summary { IsSummaryWith self.old.memory.serial (block_at self.new.memory result)
            self.old.memory.active self.old.memory.fill entries.now }
        ensures serial { self.new.memory.serial ≡ next_serial self.old.memory.serial }
        ensures expects { Expects self.new.memory entries.now }
        // The log names the blocks to come.
        ensures names { (k : ℕ) → k < length entries.now
            → entry_at self.new.memory (result + 1 + k) ≡ slice_get entries.now k }
        ensures unnamed { entry_at self.new.memory result ≡ None }
        ensures next { next_address self.new.memory ≡ next_address self.old.memory + 1 }
        ensures extends { Extends self.old.memory self.new.memory }
        // Its serial is above all others.
        ensures rising { IsRising self.old.memory → IsRising self.new.memory }
        ensures tables { self.new.tables ≡ self.old.tables }
        ensures clean { self.new.clean ≡ self.old.clean }
        ensures step { (at : ℕ → ℕ → ℕ) → Writes (log_state self.old at) (log_state self.new at) 1 }
        ensures kept { IsParts self.new }
    {
        self.segments.begin(entries)
    }

    /// Writes the next block of the partial segment, and gives its address.
    pub fn put(&mut self, block: &Block) -> u32
        requires { 1 ≤ room_of self.old.memory }
        ensures address { result ≡ next_address self.old.memory }
        ensures block { block_at self.new.memory result ≡ block.now }
        ensures serial { self.new.memory.serial ≡ self.old.memory.serial }
        ensures expects { (entry : SummaryEntry) (entries : List SummaryEntry)
            → Expects self.old.memory (entry ∷ entries) → Expects self.new.memory entries }
        ensures names { (entry : SummaryEntry) (entries : List SummaryEntry)
            → Expects self.old.memory (entry ∷ entries)
            → entry_at self.new.memory result ≡ Some entry }
        // Its owner, and in an inode block those of its records, are named by what was expected.
        ensures owners { (entry : SummaryEntry) (entries : List SummaryEntry) (slot : ℕ)
            → Expects self.old.memory (entry ∷ entries) → slot < 4
            → named_at self.new.memory (4 * result + slot)
            ≡ owner_in entry.block entry.number entry.version slot (record_in block.now slot) }
        ensures next { next_address self.new.memory ≡ next_address self.old.memory + 1 }
        ensures extends { Extends self.old.memory self.new.memory }
        // It is no summary.
        ensures rising { (entry : SummaryEntry) (entries : List SummaryEntry)
            → Expects self.old.memory (entry ∷ entries)
            → IsRising self.old.memory → IsRising self.new.memory }
        ensures tables { self.new.tables ≡ self.old.tables }
        ensures clean { self.new.clean ≡ self.old.clean }
        ensures step { (at : ℕ → ℕ → ℕ) → Writes (log_state self.old at) (log_state self.new at) 1 }
        ensures kept { IsParts self.new }
    {
        self.segments.put(block)
    }
}
