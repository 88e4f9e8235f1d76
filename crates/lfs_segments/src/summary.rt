//! The summary block at the head of a partial segment.

ghost use Rattle.std.specs.Prelude.{◌≡◌, ℕ, ◌+◌, ◌-◌, ◌*◌, ◌<◌, ◌≤◌, ◌++◌, List, All, length, replicate, IfSome, Some, option_map, slice_index, slice_index_or};
ghost use Rattle.lfs_types.specs.Ranges.{most_segments};
ghost use Rattle.lfs_segments.specs.declared.summary.TheConstants.{ENTRY_LIMIT};
ghost use Rattle.lfs_segments.specs.Bytes.{IsBlock};
ghost use Rattle.lfs_segments.specs.Entry.{AreEntriesAt, AreNamed-prop, IsEntry, IsEntryAt, unused};

use crate::bytes::{half, is_zero, put_half, put_word, word};
use crate::entry::SummaryEntry;
use lfs_types::block::{Block, ZERO_BLOCK};
use lfs_types::limits::{MOST_SEGMENTS, SEGMENT_BLOCKS};

/// The greatest number of entries of a summary (this project's profile).
pub const ENTRY_LIMIT: usize = 40;

/// The first four bytes of a summary, `LFSS`.
const MARK: u32 = 0x4c46_5353;

/// The summary of a partial segment: the blocks that follow it in the segment, in order (this
/// project's profile).
#[derive(Clone, Copy, PartialEq, Eq, Debug)]
pub struct Summary {
    /// The segment that it stands in, below 1,024.
    pub segment: u32,
    /// Its block in that segment.
    pub offset: u32,
    /// The number of entries, 1 to 40; the blocks that they name end within the segment.
    pub count: u32,
    /// The entries, and past `count` the unused entry.
    pub entries: [SummaryEntry; ENTRY_LIMIT],
    ghost in_volume: { segment < most_segments },
    ghost some: { 0 < count },
    ghost at_most: { count ≤ ENTRY_LIMIT },
    ghost in_segment: { offset + count ≤ 63 },
    ghost whole: { length entries ≡ ENTRY_LIMIT },
    ghost named: { (k : ℕ) → k < count → IsEntry (slice_index_or entries k unused) } by { AreNamed-prop count entries },
    ghost rest: { (k : ℕ) → count ≤ k → slice_index_or entries k unused ≡ unused },
}

impl Summary {
    ghost use Rattle.lfs_segments.specs.Reading.{named_by, summary_entries};
    ghost use Rattle.lfs_segments.specs.Summary.{IsSummaryBlock};

    /// The summary of a partial segment of 1 to 40 blocks: its segment, its block in that segment,
    /// and an entry for each block that follows it there.
    pub fn new(segment: u32, offset: u32, entries: &[SummaryEntry]) -> Summary
        requires in_volume { segment < most_segments }
        requires some { 0 < length entries.now }
        requires at_most { length entries.now ≤ ENTRY_LIMIT }
        requires in_segment { offset + length entries.now ≤ 63 }
        requires named { All IsEntry entries.now }
        ensures segment { result.segment ≡ segment }
        ensures offset { result.offset ≡ offset }
        ensures entries { named_by result ≡ entries.now }
    {
        Summary {
            segment,
            offset,
            count: entries.len() as u32,
            entries: padded(entries),
        }
    }

    /// The block that spells the summary. No other block does.
    pub fn encode(&self) -> Block
        ensures spelled { IsSummaryBlock result self.now }
        ensures only { (bytes : List ℕ) → IsBlock bytes → IsSummaryBlock bytes self.now
            → bytes ≡ result }
        ensures entries { summary_entries result ≡ Some (named_by self.now) }
    {
        let mut block = ZERO_BLOCK;
        put_word(&mut block, 0, MARK);
        put_word(&mut block, 4, self.segment);
        put_half(&mut block, 8, self.offset as u16);
        put_half(&mut block, 10, self.count as u16);
        write_entries(&self.entries, self.count as usize, &mut block);
        block
    }

    /// The summary that a block spells, or None where it spells none.
    pub fn decode(block: &Block) -> Option<Summary>
        ensures found { IfSome result (λ summary. IsSummaryBlock block.now summary) }
        ensures only { (summary : Summary) → IsSummaryBlock block.now summary
            → result ≡ Some summary }
        ensures entries { option_map named_by result ≡ summary_entries block.now }
    {
        Summary::parse(block)
    }

    /// What `decode` gives.
    fn parse(block: &Block) -> Option<Summary>
        ensures found { IfSome result (λ summary. IsSummaryBlock block.now summary) }
        ensures only { (summary : Summary) → IsSummaryBlock block.now summary
            → result ≡ Some summary }
    {
        let segment = word(block, 4);
        let offset = half(block, 8);
        let count = half(block, 10);
        if word(block, 0) != MARK || segment >= MOST_SEGMENTS || word(block, 12) != 0 {
            return None;
        }
        if count == 0 || count as usize > ENTRY_LIMIT || offset + count >= SEGMENT_BLOCKS {
            return None;
        }
        if !is_zero(&block[entry_place(count as usize)..]) {
            return None;
        }
        let entries = read_entries(block, count as usize)?;
        Some(Summary {
            segment,
            offset,
            count,
            entries,
        })
    }
}

/// The entries, and behind them the unused one up to 40.
fn padded(entries: &[SummaryEntry]) -> [SummaryEntry; ENTRY_LIMIT]
    requires { length entries.now ≤ ENTRY_LIMIT }
    ensures { result ≡ entries.now ++ replicate (ENTRY_LIMIT - length entries.now) unused }
{
    let mut padded = [SummaryEntry::UNUSED; ENTRY_LIMIT];
    padded[..entries.len()].copy_from_slice(entries);
    padded
}

/// The place of an entry in a summary block, or of what follows the last one.
fn entry_place(k: usize) -> usize
    requires { k ≤ ENTRY_LIMIT }
    ensures { result ≡ 16 + 12 * k }
{
    16 + 12 * k
}

/// Writes the first entries, each into its place in a summary block.
fn write_entries(entries: &[SummaryEntry; ENTRY_LIMIT], count: usize, block: &mut Block)
    requires { count ≤ ENTRY_LIMIT }
    ensures bytes { IsBlock block.new }
    ensures written { (k : ℕ) → k < count
        → IsEntryAt block.new (16 + 12 * k) (slice_index_or entries.now k unused) }
    ensures before { (i : ℕ) → i < 16 → slice_index block.new i ≡ slice_index block.old i }
    ensures after { (i : ℕ) → 16 + 12 * count ≤ i
        → slice_index block.new i ≡ slice_index block.old i }
{
    for k in 0..count {
        entries[k].write(block, entry_place(k));
    }
}

/// The entries of a summary block, or None where one of them is spelled by no entry.
fn read_entries(block: &Block, count: usize) -> Option<[SummaryEntry; ENTRY_LIMIT]>
    requires { count ≤ ENTRY_LIMIT }
    ensures found { IfSome result (λ entries. AreEntriesAt block.now count entries) }
    ensures only { (entries : List SummaryEntry) → AreEntriesAt block.now count entries
        → result ≡ Some entries }
{
    let mut entries = [SummaryEntry::UNUSED; ENTRY_LIMIT];
    for k in 0..count {
        entries[k] = SummaryEntry::read(block, entry_place(k))?;
    }
    Some(entries)
}
